// Where the code of the two switches stands.
ghost use Rattle.std.specs.Prelude.{◌≡◌, ◌≢◌, ◌<◌, IfNone, IfSome, Some};
ghost use Rattle.vsm_status.specs.Layouts.{code_page_offsets_bits, read_code_page_offsets};
ghost use Rattle.vsm_status.specs.declared.code_page_offsets.CodePageOffsets.{CodePageOffsets};

/// Where the code of the two switches begins in the hypercall page (TLFS, Virtual Secure Mode,
/// HV_REGISTER_VSM_CODE_PAGE_OFFSETS).
#[derive(Clone, Copy, Debug, PartialEq, Eq)]
pub struct CodePageOffsets {
    /// The offset of the call of level 1, bits 11:0 (VtlCallOffset), below 4096.
    pub call: u16,
    /// The offset of the return to level 0, bits 23:12 (VtlReturnOffset), below 4096.
    pub back: u16,
}

impl CodePageOffsets {
    /// The register's bits: its fields, and all others zero.
    pub fn bits(self) -> u64
        requires call { self.call < 4096 }
        requires back { self.back < 4096 }
        ensures value { result ≡ code_page_offsets_bits self }
        ensures reads_back { read_code_page_offsets result ≡ Some self }
    {
        u64::from(self.call) + (u64::from(self.back) << 12)
    }

    /// The offsets of these bits: `None` exactly where none have them.
    pub fn read(bits: u64) -> Option<CodePageOffsets>
        ensures value { result ≡ read_code_page_offsets bits }
        ensures has { IfSome result (λ offsets. code_page_offsets_bits offsets ≡ bits) }
        ensures call { IfSome result (λ offsets. offsets.call < 4096) }
        ensures back { IfSome result (λ offsets. offsets.back < 4096) }
        ensures none { IfNone result ((offsets : CodePageOffsets) → offsets.call < 4096 → offsets.back < 4096 → code_page_offsets_bits offsets ≢ bits) }
    {
        let offsets = CodePageOffsets {
            call: (bits % (1 << 12)) as u16,
            back: (bits / (1 << 12) % (1 << 12)) as u16,
        };
        (offsets.bits() == bits).then_some(offsets)
    }
}
