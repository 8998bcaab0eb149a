// The parts of the registers of 128 bits.
ghost use Rattle.std.specs.Prelude.{◌≡◌, ◌+◌, ◌%◌, ◌^◌};
ghost use Rattle.register_file.specs.Parts.{segment_bits, table_bits, IsSegment, IsTable};
ghost use Rattle.register_file.specs.declared.parts.Segment.{Segment};
ghost use Rattle.register_file.specs.declared.parts.Table.{Table};

/// A segment register's parts (TLFS, HV_X64_SEGMENT_REGISTER).
#[derive(Clone, Copy, Debug, PartialEq, Eq)]
pub struct Segment {
    /// Bits 63 to 0, the address where the segment begins.
    pub base: u64,
    /// Bits 95 to 64.
    pub limit: u32,
    /// Bits 111 to 96.
    pub selector: u16,
    /// Bits 127 to 112.
    pub attributes: u16,
}

impl Segment {
    /// The parts of a register of these bits.
    pub fn of(bits: u128) -> Segment
        ensures bits { segment_bits result ≡ bits }
        ensures only { (segment : Segment) → IsSegment segment → segment_bits segment ≡ bits → result ≡ segment }
    {
        Segment {
            base: (bits % (1 << 64)) as u64,
            limit: ((bits >> 64) % (1 << 32)) as u32,
            selector: ((bits >> 96) % (1 << 16)) as u16,
            attributes: (bits >> 112) as u16,
        }
    }

    /// The bits of a register of these parts.
    pub fn bits(self) -> u128
        ensures { result ≡ segment_bits self }
    {
        u128::from(self.base)
            + (u128::from(self.limit) << 64)
            + (u128::from(self.selector) << 96)
            + (u128::from(self.attributes) << 112)
    }
}

/// A table register's parts (TLFS, HV_X64_TABLE_REGISTER). Its lowest 48 bits are zero.
#[derive(Clone, Copy, Debug, PartialEq, Eq)]
pub struct Table {
    /// Bits 63 to 48.
    pub limit: u16,
    /// Bits 127 to 64, the address where the table begins.
    pub base: u64,
}

impl Table {
    /// The parts of a register of these bits, whatever its lowest 48 bits are.
    pub fn of(bits: u128) -> Table
        ensures bits { table_bits result + bits % 2 ^ 48 ≡ bits }
        ensures only { (table : Table) → IsTable table → table_bits table ≡ bits → result ≡ table }
    {
        Table {
            limit: ((bits >> 48) % (1 << 16)) as u16,
            base: (bits >> 64) as u64,
        }
    }

    /// The bits of a register of these parts.
    pub fn bits(self) -> u128
        ensures { result ≡ table_bits self }
    {
        (u128::from(self.limit) << 48) + (u128::from(self.base) << 64)
    }
}
