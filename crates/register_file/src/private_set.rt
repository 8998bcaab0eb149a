// The registers that each level has as its own.
ghost use Rattle.std.specs.Prelude.{◌≡◌, ◌<◌, ◌^◌, false, slice_index, slice_set};
ghost use Rattle.vsm_base.specs.Names.{is_shared};
ghost use Rattle.vsm_core.specs.Registers.{bits_of, private_place, opening_private};
ghost use Rattle.register_file.specs.Values.{private_values};

use vsm_base::Name;

/// A level's own registers (TLFS, Virtual Secure Mode, private state). Any value of a field may be put here: which
/// values a register takes is a rule of [`Bank::put`](crate::Bank::put) alone.
#[derive(Clone, Copy, Debug, PartialEq, Eq)]
pub struct PrivateSet {
    /// The stack pointer RSP.
    pub rsp: u64,
    /// The instruction pointer RIP.
    pub rip: u64,
    /// The flags register RFLAGS.
    pub rflags: u64,
    /// The control register CR0.
    pub cr0: u64,
    /// The control register CR3.
    pub cr3: u64,
    /// The control register CR4.
    pub cr4: u64,
    /// The control register CR8.
    pub cr8: u64,
    /// The debug register DR7.
    pub dr7: u64,
    /// The segment register ES.
    pub es: u128,
    /// The segment register CS.
    pub cs: u128,
    /// The segment register SS.
    pub ss: u128,
    /// The segment register DS.
    pub ds: u128,
    /// The segment register FS.
    pub fs: u128,
    /// The segment register GS.
    pub gs: u128,
    /// The local descriptor table register LDTR.
    pub ldtr: u128,
    /// The task register TR.
    pub tr: u128,
    /// The interrupt descriptor table register IDTR.
    pub idtr: u128,
    /// The global descriptor table register GDTR.
    pub gdtr: u128,
    /// The model-specific register IA32_EFER.
    pub efer: u64,
    /// The model-specific register IA32_KERNEL_GS_BASE.
    pub kernel_gs_base: u64,
    /// The model-specific register IA32_PAT.
    pub pat: u64,
    /// The model-specific register IA32_SYSENTER_CS.
    pub sysenter_cs: u64,
    /// The model-specific register IA32_SYSENTER_EIP.
    pub sysenter_eip: u64,
    /// The model-specific register IA32_SYSENTER_ESP.
    pub sysenter_esp: u64,
    /// The model-specific register IA32_STAR.
    pub star: u64,
    /// The model-specific register IA32_LSTAR.
    pub lstar: u64,
    /// The model-specific register IA32_CSTAR.
    pub cstar: u64,
    /// The model-specific register IA32_FMASK.
    pub sfmask: u64,
    /// The synthetic register of the virtual processor's assist page (TLFS, HvRegisterVpAssistPage).
    pub vp_assist_page: u64,
    /// The synthetic interrupt source 0 (TLFS, HvRegisterSint0).
    pub sint0: u64,
    /// The control register of the synthetic interrupt controller (TLFS, HvRegisterScontrol).
    pub scontrol: u64,
    /// The page of synthetic messages (TLFS, HvRegisterSimp).
    pub simp: u64,
}

/// What a level's own registers are before its first operation. This project's own table.
pub(crate) const OPENING: PrivateSet = PrivateSet {
    rsp: 0,
    rip: 0,
    rflags: 2,
    cr0: 1,
    cr3: 0,
    cr4: 0,
    cr8: 0,
    dr7: 0,
    es: 0,
    cs: 0,
    ss: 0,
    ds: 0,
    fs: 0,
    gs: 0,
    ldtr: 0,
    tr: 0,
    idtr: 0,
    gdtr: 0,
    efer: 0,
    kernel_gs_base: 0,
    pat: 0,
    sysenter_cs: 0,
    sysenter_eip: 0,
    sysenter_esp: 0,
    star: 0,
    lstar: 0,
    cstar: 0,
    sfmask: 0,
    vp_assist_page: 0,
    sint0: 0x10000,
    scontrol: 0,
    simp: 0,
};

impl PrivateSet {
    /// What a level's own registers are before its first operation.
    #[tactic(auto, unfolding(vsm_core::specs::Registers::opening_private, vsm_core::specs::Registers::private_names, vsm_core::specs::Registers::opening_value, vsm_base::specs::Names::all_names))]
    pub fn opening() -> PrivateSet
        ensures { private_values result ≡ opening_private }
    {
        OPENING
    }

    /// The register of this name.
    #[tactic(auto, unfolding(vsm_core::specs::Registers::private_place, vsm_core::specs::Registers::private_names, vsm_base::specs::Names::all_names))]
    pub(crate) fn get(&self, name: Name) -> u128
        requires { is_shared name ≡ false }
        ensures { result ≡ slice_index (private_values self.now) (private_place name) }
    {
        match name {
            Name::Rsp => u128::from(self.rsp),
            Name::Rip => u128::from(self.rip),
            Name::Rflags => u128::from(self.rflags),
            Name::Cr0 => u128::from(self.cr0),
            Name::Cr3 => u128::from(self.cr3),
            Name::Cr4 => u128::from(self.cr4),
            Name::Cr8 => u128::from(self.cr8),
            Name::Dr7 => u128::from(self.dr7),
            Name::Es => self.es,
            Name::Cs => self.cs,
            Name::Ss => self.ss,
            Name::Ds => self.ds,
            Name::Fs => self.fs,
            Name::Gs => self.gs,
            Name::Ldtr => self.ldtr,
            Name::Tr => self.tr,
            Name::Idtr => self.idtr,
            Name::Gdtr => self.gdtr,
            Name::Efer => u128::from(self.efer),
            Name::KernelGsBase => u128::from(self.kernel_gs_base),
            Name::Pat => u128::from(self.pat),
            Name::SysenterCs => u128::from(self.sysenter_cs),
            Name::SysenterEip => u128::from(self.sysenter_eip),
            Name::SysenterEsp => u128::from(self.sysenter_esp),
            Name::Star => u128::from(self.star),
            Name::Lstar => u128::from(self.lstar),
            Name::Cstar => u128::from(self.cstar),
            Name::Sfmask => u128::from(self.sfmask),
            Name::VpAssistPage => u128::from(self.vp_assist_page),
            Name::Sint0 => u128::from(self.sint0),
            Name::Scontrol => u128::from(self.scontrol),
            Name::Simp => u128::from(self.simp),
            _ => 0,
        }
    }

    /// Makes the register of this name have this value.
    #[tactic(auto, unfolding(vsm_core::specs::Registers::bits_of, vsm_core::specs::Registers::private_place, vsm_core::specs::Registers::private_names, vsm_base::specs::Names::all_names))]
    pub(crate) fn put(&mut self, name: Name, value: u128)
        requires own { is_shared name ≡ false }
        requires fits { value < 2 ^ (bits_of name).1 }
        ensures { private_values self.new ≡ slice_set (private_values self.old) (private_place name) value }
    {
        match name {
            Name::Rsp => self.rsp = value as u64,
            Name::Rip => self.rip = value as u64,
            Name::Rflags => self.rflags = value as u64,
            Name::Cr0 => self.cr0 = value as u64,
            Name::Cr3 => self.cr3 = value as u64,
            Name::Cr4 => self.cr4 = value as u64,
            Name::Cr8 => self.cr8 = value as u64,
            Name::Dr7 => self.dr7 = value as u64,
            Name::Es => self.es = value,
            Name::Cs => self.cs = value,
            Name::Ss => self.ss = value,
            Name::Ds => self.ds = value,
            Name::Fs => self.fs = value,
            Name::Gs => self.gs = value,
            Name::Ldtr => self.ldtr = value,
            Name::Tr => self.tr = value,
            Name::Idtr => self.idtr = value,
            Name::Gdtr => self.gdtr = value,
            Name::Efer => self.efer = value as u64,
            Name::KernelGsBase => self.kernel_gs_base = value as u64,
            Name::Pat => self.pat = value as u64,
            Name::SysenterCs => self.sysenter_cs = value as u64,
            Name::SysenterEip => self.sysenter_eip = value as u64,
            Name::SysenterEsp => self.sysenter_esp = value as u64,
            Name::Star => self.star = value as u64,
            Name::Lstar => self.lstar = value as u64,
            Name::Cstar => self.cstar = value as u64,
            Name::Sfmask => self.sfmask = value as u64,
            Name::VpAssistPage => self.vp_assist_page = value as u64,
            Name::Sint0 => self.sint0 = value as u64,
            Name::Scontrol => self.scontrol = value as u64,
            Name::Simp => self.simp = value as u64,
            _ => {}
        }
    }
}
