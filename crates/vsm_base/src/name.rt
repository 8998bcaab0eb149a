// The registers that a processor keeps.
ghost use Rattle.std.specs.Prelude.{◌≡◌, ◌≢◌, ◌==◌, find, IfSome, IfNone};
ghost use Rattle.vsm_base.specs.Names.{number_of, is_shared, is_general, spelling, is_spelled, all_names, named_by, numbered};
ghost use Rattle.vsm_base.specs.declared.name.Name.{Name};

/// A register that a virtual processor keeps, by its name (TLFS, HV_REGISTER_NAME; Intel SDM, volume 1, Basic
/// Execution Environment, and volume 3, System Architecture Overview). The numbers, and which registers the
/// levels share, are this project's own table after the TLFS.
#[derive(Clone, Copy, Debug, PartialEq, Eq)]
pub enum Name {
    /// The general register RAX.
    Rax,
    /// The general register RCX.
    Rcx,
    /// The general register RDX.
    Rdx,
    /// The general register RBX.
    Rbx,
    /// The stack pointer RSP.
    Rsp,
    /// The general register RBP.
    Rbp,
    /// The general register RSI.
    Rsi,
    /// The general register RDI.
    Rdi,
    /// The general register R8.
    R8,
    /// The general register R9.
    R9,
    /// The general register R10.
    R10,
    /// The general register R11.
    R11,
    /// The general register R12.
    R12,
    /// The general register R13.
    R13,
    /// The general register R14.
    R14,
    /// The general register R15.
    R15,
    /// The instruction pointer RIP.
    Rip,
    /// The flags register RFLAGS.
    Rflags,
    /// The control register CR0.
    Cr0,
    /// The control register CR2.
    Cr2,
    /// The control register CR3.
    Cr3,
    /// The control register CR4.
    Cr4,
    /// The control register CR8.
    Cr8,
    /// The debug register DR0.
    Dr0,
    /// The debug register DR1.
    Dr1,
    /// The debug register DR2.
    Dr2,
    /// The debug register DR3.
    Dr3,
    /// The debug register DR6.
    Dr6,
    /// The debug register DR7.
    Dr7,
    /// The segment register ES.
    Es,
    /// The segment register CS.
    Cs,
    /// The segment register SS.
    Ss,
    /// The segment register DS.
    Ds,
    /// The segment register FS.
    Fs,
    /// The segment register GS.
    Gs,
    /// The local descriptor table register LDTR.
    Ldtr,
    /// The task register TR.
    Tr,
    /// The interrupt descriptor table register IDTR.
    Idtr,
    /// The global descriptor table register GDTR.
    Gdtr,
    /// The model-specific register IA32_EFER.
    Efer,
    /// The model-specific register IA32_KERNEL_GS_BASE.
    KernelGsBase,
    /// The model-specific register IA32_PAT.
    Pat,
    /// The model-specific register IA32_SYSENTER_CS.
    SysenterCs,
    /// The model-specific register IA32_SYSENTER_EIP.
    SysenterEip,
    /// The model-specific register IA32_SYSENTER_ESP.
    SysenterEsp,
    /// The model-specific register IA32_STAR.
    Star,
    /// The model-specific register IA32_LSTAR.
    Lstar,
    /// The model-specific register IA32_CSTAR.
    Cstar,
    /// The model-specific register IA32_FMASK.
    Sfmask,
    /// The synthetic register of the virtual processor's assist page (TLFS, HvRegisterVpAssistPage).
    VpAssistPage,
    /// The synthetic interrupt source 0 (TLFS, HvRegisterSint0).
    Sint0,
    /// The control register of the synthetic interrupt controller (TLFS, HvRegisterScontrol).
    Scontrol,
    /// The page of synthetic messages (TLFS, HvRegisterSimp).
    Simp,
    /// Which accesses to registers level 1 intercepts (TLFS, HvRegisterCrInterceptControl).
    CrInterceptControl,
    /// The bits of CR0 whose change level 1 intercepts (TLFS, HvRegisterCrInterceptCr0Mask).
    CrInterceptCr0Mask,
    /// The bits of CR4 whose change level 1 intercepts (TLFS, HvRegisterCrInterceptCr4Mask).
    CrInterceptCr4Mask,
}

const ALL: [Name; 56] = [
    Name::Rax,
    Name::Rcx,
    Name::Rdx,
    Name::Rbx,
    Name::Rsp,
    Name::Rbp,
    Name::Rsi,
    Name::Rdi,
    Name::R8,
    Name::R9,
    Name::R10,
    Name::R11,
    Name::R12,
    Name::R13,
    Name::R14,
    Name::R15,
    Name::Rip,
    Name::Rflags,
    Name::Cr0,
    Name::Cr2,
    Name::Cr3,
    Name::Cr4,
    Name::Cr8,
    Name::Dr0,
    Name::Dr1,
    Name::Dr2,
    Name::Dr3,
    Name::Dr6,
    Name::Dr7,
    Name::Es,
    Name::Cs,
    Name::Ss,
    Name::Ds,
    Name::Fs,
    Name::Gs,
    Name::Ldtr,
    Name::Tr,
    Name::Idtr,
    Name::Gdtr,
    Name::Efer,
    Name::KernelGsBase,
    Name::Pat,
    Name::SysenterCs,
    Name::SysenterEip,
    Name::SysenterEsp,
    Name::Star,
    Name::Lstar,
    Name::Cstar,
    Name::Sfmask,
    Name::VpAssistPage,
    Name::Sint0,
    Name::Scontrol,
    Name::Simp,
    Name::CrInterceptControl,
    Name::CrInterceptCr0Mask,
    Name::CrInterceptCr4Mask,
];

fn with_number(all: &[Name], number: u32) -> Option<Name>
    ensures { result ≡ find (λ name. number_of name == number) all.now }
{
    for name in all {
        if name.number() == number {
            return Some(*name);
        }
    }
    None
}

fn with_spelling(all: &[Name], word: &[u8]) -> Option<Name>
    ensures { result ≡ find (is_spelled word.now) all.now }
{
    for name in all {
        if name.text() == word {
            return Some(*name);
        }
    }
    None
}

impl Name {
    /// The register of this number: `None` exactly where no register that a processor keeps has it.
    #[tactic(auto, unfolding(crate::specs::Names::all_names, crate::specs::Names::numbered))]
    pub fn of(number: u32) -> Option<Name>
        ensures found { result ≡ numbered number }
        ensures some { IfSome result (λ name. number_of name ≡ number) }
        ensures none { IfNone result ((name : Name) → number_of name ≢ number) }
    {
        with_number(&ALL, number)
    }

    /// The register that is spelled so, as the script and the report write it: `None` exactly where none is.
    #[tactic(auto, unfolding(crate::specs::Names::all_names, crate::specs::Names::named_by))]
    pub fn spelled(word: &[u8]) -> Option<Name>
        ensures { result ≡ named_by word.now }
    {
        with_spelling(&ALL, word)
    }

    /// Its number (TLFS, HV_REGISTER_NAME), as this project's table has it.
    pub fn number(self) -> u32
        ensures { result ≡ number_of self }
    {
        match self {
            Name::Rax => 0x0002_0000,
            Name::Rcx => 0x0002_0001,
            Name::Rdx => 0x0002_0002,
            Name::Rbx => 0x0002_0003,
            Name::Rsp => 0x0002_0004,
            Name::Rbp => 0x0002_0005,
            Name::Rsi => 0x0002_0006,
            Name::Rdi => 0x0002_0007,
            Name::R8 => 0x0002_0008,
            Name::R9 => 0x0002_0009,
            Name::R10 => 0x0002_000A,
            Name::R11 => 0x0002_000B,
            Name::R12 => 0x0002_000C,
            Name::R13 => 0x0002_000D,
            Name::R14 => 0x0002_000E,
            Name::R15 => 0x0002_000F,
            Name::Rip => 0x0002_0010,
            Name::Rflags => 0x0002_0011,
            Name::Cr0 => 0x0004_0000,
            Name::Cr2 => 0x0004_0001,
            Name::Cr3 => 0x0004_0002,
            Name::Cr4 => 0x0004_0003,
            Name::Cr8 => 0x0004_0004,
            Name::Dr0 => 0x0005_0000,
            Name::Dr1 => 0x0005_0001,
            Name::Dr2 => 0x0005_0002,
            Name::Dr3 => 0x0005_0003,
            Name::Dr6 => 0x0005_0004,
            Name::Dr7 => 0x0005_0005,
            Name::Es => 0x0006_0000,
            Name::Cs => 0x0006_0001,
            Name::Ss => 0x0006_0002,
            Name::Ds => 0x0006_0003,
            Name::Fs => 0x0006_0004,
            Name::Gs => 0x0006_0005,
            Name::Ldtr => 0x0006_0006,
            Name::Tr => 0x0006_0007,
            Name::Idtr => 0x0007_0000,
            Name::Gdtr => 0x0007_0001,
            Name::Efer => 0x0008_0001,
            Name::KernelGsBase => 0x0008_0002,
            Name::Pat => 0x0008_0004,
            Name::SysenterCs => 0x0008_0005,
            Name::SysenterEip => 0x0008_0006,
            Name::SysenterEsp => 0x0008_0007,
            Name::Star => 0x0008_0008,
            Name::Lstar => 0x0008_0009,
            Name::Cstar => 0x0008_000A,
            Name::Sfmask => 0x0008_000B,
            Name::VpAssistPage => 0x0009_0013,
            Name::Sint0 => 0x000A_0000,
            Name::Scontrol => 0x000A_0010,
            Name::Simp => 0x000A_0013,
            Name::CrInterceptControl => 0x000E_0000,
            Name::CrInterceptCr0Mask => 0x000E_0001,
            Name::CrInterceptCr4Mask => 0x000E_0002,
        }
    }

    /// Whether both levels have it as one (TLFS, Virtual Secure Mode, shared state), and else each level has its
    /// own. The registers of level 1's intercepts are kept once too, which is this project's own rule.
    pub fn shared(self) -> bool
        ensures { result ≡ is_shared self }
    {
        match self {
            Name::Rax
            | Name::Rcx
            | Name::Rdx
            | Name::Rbx
            | Name::Rbp
            | Name::Rsi
            | Name::Rdi
            | Name::R8
            | Name::R9
            | Name::R10
            | Name::R11
            | Name::R12
            | Name::R13
            | Name::R14
            | Name::R15
            | Name::Cr2
            | Name::Dr0
            | Name::Dr1
            | Name::Dr2
            | Name::Dr3
            | Name::Dr6
            | Name::CrInterceptControl
            | Name::CrInterceptCr0Mask
            | Name::CrInterceptCr4Mask => true,
            _ => false,
        }
    }

    /// Whether it is a general register: RAX, RCX, RDX, RBX, RBP, RSI, RDI or R8 to R15 (Intel SDM, General-Purpose
    /// Registers). The stack pointer is not among them.
    pub fn general(self) -> bool
        ensures { result ≡ is_general self }
    {
        match self {
            Name::Rax
            | Name::Rcx
            | Name::Rdx
            | Name::Rbx
            | Name::Rbp
            | Name::Rsi
            | Name::Rdi
            | Name::R8
            | Name::R9
            | Name::R10
            | Name::R11
            | Name::R12
            | Name::R13
            | Name::R14
            | Name::R15 => true,
            _ => false,
        }
    }

    /// How the script and the report spell it, which is this project's own: the name of the variant, in ASCII.
    pub fn text(self) -> &'static [u8]
        ensures { result.now ≡ spelling self }
    {
        match self {
            Name::Rax => b"Rax",
            Name::Rcx => b"Rcx",
            Name::Rdx => b"Rdx",
            Name::Rbx => b"Rbx",
            Name::Rsp => b"Rsp",
            Name::Rbp => b"Rbp",
            Name::Rsi => b"Rsi",
            Name::Rdi => b"Rdi",
            Name::R8 => b"R8",
            Name::R9 => b"R9",
            Name::R10 => b"R10",
            Name::R11 => b"R11",
            Name::R12 => b"R12",
            Name::R13 => b"R13",
            Name::R14 => b"R14",
            Name::R15 => b"R15",
            Name::Rip => b"Rip",
            Name::Rflags => b"Rflags",
            Name::Cr0 => b"Cr0",
            Name::Cr2 => b"Cr2",
            Name::Cr3 => b"Cr3",
            Name::Cr4 => b"Cr4",
            Name::Cr8 => b"Cr8",
            Name::Dr0 => b"Dr0",
            Name::Dr1 => b"Dr1",
            Name::Dr2 => b"Dr2",
            Name::Dr3 => b"Dr3",
            Name::Dr6 => b"Dr6",
            Name::Dr7 => b"Dr7",
            Name::Es => b"Es",
            Name::Cs => b"Cs",
            Name::Ss => b"Ss",
            Name::Ds => b"Ds",
            Name::Fs => b"Fs",
            Name::Gs => b"Gs",
            Name::Ldtr => b"Ldtr",
            Name::Tr => b"Tr",
            Name::Idtr => b"Idtr",
            Name::Gdtr => b"Gdtr",
            Name::Efer => b"Efer",
            Name::KernelGsBase => b"KernelGsBase",
            Name::Pat => b"Pat",
            Name::SysenterCs => b"SysenterCs",
            Name::SysenterEip => b"SysenterEip",
            Name::SysenterEsp => b"SysenterEsp",
            Name::Star => b"Star",
            Name::Lstar => b"Lstar",
            Name::Cstar => b"Cstar",
            Name::Sfmask => b"Sfmask",
            Name::VpAssistPage => b"VpAssistPage",
            Name::Sint0 => b"Sint0",
            Name::Scontrol => b"Scontrol",
            Name::Simp => b"Simp",
            Name::CrInterceptControl => b"CrInterceptControl",
            Name::CrInterceptCr0Mask => b"CrInterceptCr0Mask",
            Name::CrInterceptCr4Mask => b"CrInterceptCr4Mask",
        }
    }
}
