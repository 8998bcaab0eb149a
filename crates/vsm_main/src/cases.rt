// A script with its report as it was written by hand.
/// A script and what the program writes of it.
#[derive(Clone, Copy)]
pub struct Case {
    pub script: &'static [u8],
    pub text: &'static [u8],
}

pub const DENIED_STORE: Case = Case {
    script: b"\
vsm 1\n\
vps 1\n\
pages 2\n\
budget 10\n\
started 1\n\
mask 1 1\n\
word 1 0 5\n\
program 0 0\n\
load Rax 0x1000\n\
store 0x1000 7\n\
schedule 0 0\n\
end\n\
",
    text: b"\
vsm-report 1 trace\n\
0.0 0 load ok page 1 mask 1 gen 0 value 0x0000000000000005\n\
0.0 1 store denied page 1 mask 1 gen 0 access write held\n\
end 0 held\n\
close\n\
",
};
