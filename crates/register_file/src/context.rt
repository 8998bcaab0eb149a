// The initial context of a level.
ghost use Rattle.std.specs.Prelude.{◌≡◌, ◌+◌, ◌*◌, ◌^◌, ◌↔◌, IsOk, IsTrue, IfOk, IfErr};
ghost use Rattle.vsm_core.specs.Registers.{opening_private};
ghost use Rattle.register_file.specs.Contexts.{context_values};
ghost use Rattle.vsm_core.specs.Contexts.{context_places, values_of, are_legal, placed};
ghost use Rattle.register_file.specs.Values.{private_values};

use crate::legal::is_legal;
use crate::private_set::{OPENING, PrivateSet};
use vsm_base::{HvStatus, Name};

/// The registers that a level is given when a processor's level is enabled (TLFS, HV_INITIAL_VP_CONTEXT). A context
/// that was read has no bit set that must be zero.
#[derive(Clone, Copy, Debug, PartialEq, Eq)]
pub struct Context {
    /// The instruction pointer RIP.
    pub rip: u64,
    /// The stack pointer RSP.
    pub rsp: u64,
    /// The flags register RFLAGS.
    pub rflags: u64,
    /// The segment register CS.
    pub cs: u128,
    /// The segment register DS.
    pub ds: u128,
    /// The segment register ES.
    pub es: u128,
    /// The segment register FS.
    pub fs: u128,
    /// The segment register GS.
    pub gs: u128,
    /// The segment register SS.
    pub ss: u128,
    /// The task register TR.
    pub tr: u128,
    /// The local descriptor table register LDTR.
    pub ldtr: u128,
    /// The interrupt descriptor table register IDTR.
    pub idtr: u128,
    /// The global descriptor table register GDTR.
    pub gdtr: u128,
    /// The model-specific register IA32_EFER.
    pub efer: u64,
    /// The control register CR0.
    pub cr0: u64,
    /// The control register CR3.
    pub cr3: u64,
    /// The control register CR4.
    pub cr4: u64,
    /// The model-specific register IA32_PAT.
    pub pat: u64,
}

/// The number that two words make, the low one first.
fn wide(low: u64, high: u64) -> u128
    ensures { result ≡ low + 2 ^ 64 * high }
{
    (u128::from(high) << 64) + u128::from(low)
}

impl Context {
    #[tactic(auto, unfolding(vsm_core::specs::Contexts::context_places))]
    fn is_legal(&self) -> bool
        ensures { result ≡ are_legal context_places (context_values self.now) }
    {
        is_legal(Name::Rip, u128::from(self.rip))
            && is_legal(Name::Rsp, u128::from(self.rsp))
            && is_legal(Name::Rflags, u128::from(self.rflags))
            && is_legal(Name::Cs, self.cs)
            && is_legal(Name::Ds, self.ds)
            && is_legal(Name::Es, self.es)
            && is_legal(Name::Fs, self.fs)
            && is_legal(Name::Gs, self.gs)
            && is_legal(Name::Ss, self.ss)
            && is_legal(Name::Tr, self.tr)
            && is_legal(Name::Ldtr, self.ldtr)
            && is_legal(Name::Idtr, self.idtr)
            && is_legal(Name::Gdtr, self.gdtr)
            && is_legal(Name::Efer, u128::from(self.efer))
            && is_legal(Name::Cr0, u128::from(self.cr0))
            && is_legal(Name::Cr3, u128::from(self.cr3))
            && is_legal(Name::Cr4, u128::from(self.cr4))
            && is_legal(Name::Pat, u128::from(self.pat))
    }

    #[tactic(auto, unfolding(vsm_core::specs::Contexts::context_places, vsm_core::specs::Contexts::values_of))]
    fn of(words: &[u64; 28]) -> Context
        ensures { context_values result ≡ values_of words.now }
    {
        Context {
            rip: words[0],
            rsp: words[1],
            rflags: words[2],
            cs: wide(words[3], words[4]),
            ds: wide(words[5], words[6]),
            es: wide(words[7], words[8]),
            fs: wide(words[9], words[10]),
            gs: wide(words[11], words[12]),
            ss: wide(words[13], words[14]),
            tr: wide(words[15], words[16]),
            ldtr: wide(words[17], words[18]),
            idtr: wide(words[19], words[20]),
            gdtr: wide(words[21], words[22]),
            efer: words[23],
            cr0: words[24],
            cr3: words[25],
            cr4: words[26],
            pat: words[27],
        }
    }

    /// Reads a context from its 28 words: Rip, Rsp, Rflags; Cs, Ds, Es, Fs, Gs, Ss, Tr and Ldtr of two words each, the
    /// low one first; Idtr and Gdtr of two words each; Efer, Cr0, Cr3, Cr4 and Pat. The order is this project's own,
    /// after HV_INITIAL_VP_CONTEXT.
    ///
    /// # Errors
    /// `HvStatus::INVALID_REGISTER_VALUE` exactly where a register has a bit set that must be zero.
    pub fn read(words: &[u64; 28]) -> Result<Context, HvStatus>
        ensures ok { IfOk result (λ context. context_values context ≡ values_of words.now) }
        ensures err { IfErr result (λ status. status ≡ HvStatus.INVALID_REGISTER_VALUE) }
        ensures exact { IsOk result ↔ IsTrue (are_legal context_places (values_of words.now)) }
    {
        let context = Context::of(words);
        if context.is_legal() {
            Ok(context)
        } else {
            Err(HvStatus::INVALID_REGISTER_VALUE)
        }
    }

    /// Makes a level's own registers the context's, and those that aren't in the context what they are at the
    /// opening.
    #[tactic(auto, unfolding(vsm_core::specs::Contexts::context_places, vsm_core::specs::Contexts::placed, vsm_core::specs::Registers::opening_private, vsm_core::specs::Registers::private_names, vsm_core::specs::Registers::opening_value, vsm_base::specs::Names::all_names))]
    pub fn place(&self, set: &mut PrivateSet)
        ensures { private_values set.new ≡ placed (context_values self.now) }
    {
        *set = PrivateSet {
            rip: self.rip,
            rsp: self.rsp,
            rflags: self.rflags,
            cs: self.cs,
            ds: self.ds,
            es: self.es,
            fs: self.fs,
            gs: self.gs,
            ss: self.ss,
            tr: self.tr,
            ldtr: self.ldtr,
            idtr: self.idtr,
            gdtr: self.gdtr,
            efer: self.efer,
            cr0: self.cr0,
            cr3: self.cr3,
            cr4: self.cr4,
            pat: self.pat,
            ..OPENING
        };
    }
}
