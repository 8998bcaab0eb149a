// The page that holds a call's input.
ghost use Rattle.std.specs.Prelude.{◌≡◌, ◌≢◌, ◌+◌, ◌*◌, ◌%◌, ◌^◌, ◌<◌, ◌↔◌, IsErrOf, IfOk, MatchResult, length as size_of};
ghost use Rattle.vsm_core.specs.Calls.{part_at, header_at, element_at};

use std::marker::Model;
use vsm_base::HvStatus;

/// The page that holds a call's input, as it is lent, with the place in it where the input begins (TLFS, Hypercall
/// Inputs). Contracts see its bytes and that place.
#[derive(Drop)]
pub struct InputPage<'a> {
    bytes: &'a [u8; 4096],
    offset: u64,
}

impl<'a> Model for InputPage<'a> {
    ghost use Rattle.std.specs.Prelude.{◌<◌};
    ghost use Rattle.hyper_abi.specs.Page.{Page};

    ghost Value = { Page };

    ghost view = { λ p. record { bytes = p.bytes.now; offset = p.offset } };

    ghost invariant = { λ p. p.offset < 4096 };
}

impl<'a> InputPage<'a> {
    /// A page, with an input that begins at byte `offset`, below 4096.
    pub fn over(bytes: &'a [u8; 4096], offset: u64) -> InputPage<'a>
        requires { offset < 4096 }
        ensures bytes { result.bytes ≡ bytes.now }
        ensures offset { result.offset ≡ offset }
    {
        InputPage { bytes, offset }
    }

    /// So many bytes of the page from byte `first` on.
    fn part(&self, first: u64, size: u16) -> Result<&'a [u8], HvStatus>
        requires { first < 2 ^ 33 }
        ensures read { MatchResult result (λ part. part_at self.now.bytes self.now.offset first size ≡ Ok part.now) (λ status. part_at self.now.bytes self.now.offset first size ≡ Err status) }
        ensures alignment { IsErrOf result HvStatus.INVALID_ALIGNMENT ↔ (self.now.offset % 8 ≢ 0) }
        ensures input { IsErrOf result HvStatus.INVALID_HYPERCALL_INPUT ↔ (self.now.offset % 8 ≡ 0) × (4096 < first + size) }
        ensures size { IfOk result (λ part. size_of part.now ≡ size) }
    {
        let end = first + u64::from(size);
        if self.offset % 8 != 0 {
            return Err(HvStatus::INVALID_ALIGNMENT);
        }
        if end > 4096 {
            return Err(HvStatus::INVALID_HYPERCALL_INPUT);
        }
        let page = self.bytes;
        Ok(&page[first as usize..end as usize])
    }

    /// The header: `length` bytes from where the input begins. It is a part of the lent page and no copy.
    ///
    /// # Errors
    /// `HvStatus::INVALID_ALIGNMENT` exactly where the input doesn't begin at a multiple of 8 (TLFS, Hypercall Inputs),
    /// else `HvStatus::INVALID_HYPERCALL_INPUT` exactly where the header passes the page's end. The order of the two is
    /// this project's own.
    pub fn header(&self, length: u16) -> Result<&'a [u8], HvStatus>
        ensures read { MatchResult result (λ header. header_at self.now.bytes self.now.offset length ≡ Ok header.now) (λ status. header_at self.now.bytes self.now.offset length ≡ Err status) }
        ensures alignment { IsErrOf result HvStatus.INVALID_ALIGNMENT ↔ (self.now.offset % 8 ≢ 0) }
        ensures input { IsErrOf result HvStatus.INVALID_HYPERCALL_INPUT ↔ (self.now.offset % 8 ≡ 0) × (4096 < self.now.offset + length) }
        ensures size { IfOk result (λ header. size_of header.now ≡ length) }
    {
        self.part(self.offset, length)
    }

    /// Element `index`, from 0 on, of `size` bytes, where the elements stand one after the other behind a header of
    /// `header` bytes. It is a part of the lent page and no copy.
    ///
    /// # Errors
    /// `HvStatus::INVALID_ALIGNMENT` exactly where the input doesn't begin at a multiple of 8 (TLFS, Hypercall Inputs),
    /// else `HvStatus::INVALID_HYPERCALL_INPUT` exactly where the element passes the page's end. The order of the two is
    /// this project's own.
    pub fn element(&self, header: u16, index: u16, size: u16) -> Result<&'a [u8], HvStatus>
        ensures read { MatchResult result (λ element. element_at self.now.bytes self.now.offset header index size ≡ Ok element.now) (λ status. element_at self.now.bytes self.now.offset header index size ≡ Err status) }
        ensures alignment { IsErrOf result HvStatus.INVALID_ALIGNMENT ↔ (self.now.offset % 8 ≢ 0) }
        ensures input { IsErrOf result HvStatus.INVALID_HYPERCALL_INPUT ↔ (self.now.offset % 8 ≡ 0) × (4096 < self.now.offset + header + index * size + size) }
        ensures size { IfOk result (λ element. size_of element.now ≡ size) }
    {
        let before = u64::from(index) * u64::from(size);
        self.part(self.offset + u64::from(header) + before, size)
    }
}
