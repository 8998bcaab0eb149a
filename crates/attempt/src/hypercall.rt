// A hypercall: its first stage, how it reads its input, what it makes of that, and how it goes on by a reply.
ghost use Rattle.std.specs.Prelude.{◌≡◌, ◌+◌, ◌*◌, ◌-◌, ◌/◌, ◌%◌, ◌<◌, ◌≤◌, ◌^◌, ◌∷◌, [], ℕ, List, true, is_some, take};
ghost use Rattle.std.specs.Prelude.{IfErr, IfOk, IfSome, MatchOption, OnOk};
ghost use Rattle.attempt.specs.Asked.{word_step};
ghost use Rattle.attempt.specs.Calls.{by_answer, header_of, header_words as header_words_lem, request_for, sends_from};
ghost use Rattle.attempt.specs.Calls.{sends_now, AskedIs, OutputIs, SendIs};
ghost use Rattle.attempt.specs.Cited.{after, by_input, by_memory, by_registers, count_of, end_from, fast_words};
ghost use Rattle.attempt.specs.Cited.{first_word_lem, frame_of, gets_by, gets_from, has_output, header_refusal};
ghost use Rattle.attempt.specs.Cited.{hypercall_tree, input_address, interrupts, looked_by, output_address, past_of};
ghost use Rattle.attempt.specs.Cited.{puts_out, reads_slice, replied, replied_end, result_value, row_for, sets_by};
ghost use Rattle.attempt.specs.Cited.{sets_from, settings, slice_got, slice_numbers, slice_outcome, slice_past_lem};
ghost use Rattle.attempt.specs.Cited.{start_of, target_level_lem, those_in, words_between_lem, Ends, IsSlice, Origin};
ghost use Rattle.attempt.specs.Cited.{Outcome, Tree};
ghost use Rattle.attempt.specs.Nexts.{IsNext};
ghost use Rattle.attempt.specs.Rests.{reads_rest, rest_of, slice_words, words_rest, DecidedIs, IsHead, Moves, ReadsIs};
ghost use Rattle.attempt.specs.Rests.{StageIs};
ghost use Rattle.attempt.specs.Results.{outcome_of};
ghost use Rattle.attempt.specs.Sends.{sends_rest, SendsIs};
ghost use Rattle.attempt.specs.Slices.{end_place, got_outcome};
ghost use Rattle.attempt.specs.Views.{origin_of};

use crate::plans::put_words;
use crate::stage::{
    Asked, Behind, Decided, Gate, Head, Inner, Reads, Sending, Sends, Site, Stage, Step,
};
use crate::state::VpState;
use crate::under::{Under, front_of, put_front};
use arrayvec::ArrayVec;
use hyper_abi::{
    Call, Interrupt, ResultValue, admit, interrupt_of, interrupt_refusal, register_refusal,
    target_level,
};
use rep_frame::{Look, RepFrame, SliceEnd, get_slice, look_in, write_in};
use vsm_base::{HvStatus, Name, VpIndex, Vtl};
use vsm_core::{GuestFault, PartCall, PendingWord, Reply, Request};
use vsm_status::VpStatus;
use vtl_state::{privilege_of, word_of};

/// How many elements a slice has at most.
const SLICE: u16 = 8;

/// The site of a call's output, where it has one.
fn output_of(call: Call, address: u64) -> Option<Site>
    requires { has_output (row_for call) ≡ true → address / 4096 < 2 ^ 32 }
    ensures some { is_some result ≡ has_output (row_for call) }
    ensures site { IfSome result (λ site. site.address ≡ address) }
{
    match call {
        Call::GetVpRegisters => Some(Site::at(address)),
        _ => None,
    }
}

/// A call has come to this status, with so many elements done.
fn answered(status: HvStatus, done: u16) -> Decided
    requires { done < 4096 }
    ensures { result ≡ Decided.Replied (result_value status done) }
{
    Decided::Replied(ResultValue { status, done }.bits())
}

impl VpState {
    /// The first stage of a call whose input stands in registers, which nothing refuses.
    fn fast(&self, under: &mut Under, call: Call)
        requires few { self.now.limits.vps ≤ 8 }
        requires may_be_fast { (row_for call).may_be_fast ≡ true }
        ensures { Moves self.now under.old under.new
            (λ from. by_registers from (row_for call).code (fast_words from.state)) }
    {
        let first = word_of(&self.bank, &self.levels, Name::Rdx);
        let second = word_of(&self.bank, &self.levels, Name::R8);
        put_front(&mut under.header, first, second);
        match call {
            Call::SendSyntheticClusterIpi => {
                let sends = self.judged(&front_of(&under.header));
                self.send(under, sends);
            }
            Call::EnablePartitionVtl => under.stage = Stage::Want(Asked::EnablePartition),
            _ => unreachable!(),
        }
    }

    /// The first stage of a call whose input stands in memory, which nothing refuses.
    fn placed(&self, under: &mut Under, call: Call)
        requires few { self.now.limits.vps ≤ 8 }
        requires below { (row_for call).is_rep ≡ true → start_of (origin_of self.now) < count_of (origin_of self.now) }
        requires page { input_address self.now.state / 4096 < 2 ^ 32 }
        requires output { has_output (row_for call) ≡ true → output_address self.now.state / 4096 < 2 ^ 32 }
        requires room { has_output (row_for call) ≡ true
            → output_address self.now.state % 4096 / 8 + 2 * count_of (origin_of self.now) ≤ 512 }
        ensures { Moves self.now under.old under.new
            (λ from. by_memory from (row_for call) (input_address from.state)) }
    {
        let site = Site::at(word_of(&self.bank, &self.levels, Name::Rdx));
        let output = output_of(call, word_of(&self.bank, &self.levels, Name::R8));
        let behind = Behind::Input;
        under.head = Head { call, site, output };
        under.stage = Stage::Enter(Inner::Page(Gate { site, behind }));
    }

    /// The first stage of a hypercall: it is made at privilege level 0, and what refuses it at once refuses it here.
    pub fn hypercalling(&self, under: &mut Under)
        requires { self.now.limits.vps ≤ 8 }
        ensures { Moves self.now under.old under.new hypercall_tree }
    {
        if privilege_of(&self.bank, &self.levels) != 0 {
            under.end(Decided::Fault(GuestFault::Undefined));
            return;
        }
        let value = word_of(&self.bank, &self.levels, Name::Rcx);
        let address = word_of(&self.bank, &self.levels, Name::Rdx);
        let output = word_of(&self.bank, &self.levels, Name::R8);
        match admit(self.limits.pages, value, address, output) {
            Ok(admission) if admission.fast => self.fast(under, admission.call),
            Ok(admission) => self.placed(under, admission.call),
            Err(status) => under.end(answered(status, 0)),
        }
    }
}

impl Reads {
    /// The next read.
    pub fn next(&self) -> Step
        ensures { (words : List ℕ) (rest : List ℕ → Tree Outcome) → 0 < self.now.left
            → IsNext (reads_rest self.now words rest) (word_step result) }
    {
        Step::Read {
            page: self.page,
            index: self.index,
        }
    }

    /// The reads that are left where the next has found this, which is put behind the words that were found.
    pub fn read(self, words: &mut [u64; 32], answer: u64) -> Reads
        requires some { 0 < self.left }
        requires is { (total : ℕ) × ReadsIs self total }
        ensures rest { (rest : List ℕ → Tree Outcome)
            → reads_rest result words.new rest ≡ after (reads_rest self words.old rest) answer }
        ensures is { (total : ℕ) → ReadsIs self total → ReadsIs result total }
    {
        words[self.done as usize] = answer;
        Reads {
            page: self.page,
            index: self.index + 1,
            left: self.left - 1,
            done: self.done + 1,
        }
    }
}

/// Where the slice ends that begins at this element of so many (TLFS, Rep Hypercalls).
fn slice_past(start: u16, count: u16) -> u16
    requires { start < 4096 }
    ensures result { result ≡ slice_past_lem start count }
    ensures few { result ≤ start + 8 }
    ensures inside { result ≤ count }
    ensures some { start < count → start < result }
{
    let past = start + SLICE;
    if count < past { count } else { past }
}

/// How many words the header of a call has.
fn header_words(call: Call) -> u8
    ensures words { result ≡ header_words_lem call }
    ensures some { 0 < result }
    ensures few { result ≤ 30 }
{
    match call {
        Call::FlushVirtualAddressSpace | Call::FlushVirtualAddressList => 3,
        Call::EnableVpVtl | Call::StartVirtualProcessor => 30,
        _ => 2,
    }
}

/// The slice that begins at this element of so many: the place behind the header of its first word, and how many words
/// hold its elements.
fn slice_place(call: Call, start: u16, count: u16) -> (u16, u8)
    requires low { start < 4096 }
    requires few { count < 4096 }
    requires below { (row_for call).is_rep ≡ true → start < count }
    ensures first { result.0 ≡ first_word_lem (row_for call).read start }
    ensures words { result.1 ≡ words_between_lem (row_for call).read start (slice_past_lem start count) }
    ensures low { result.0 < 32768 }
    ensures few { result.1 ≤ 32 }
{
    let past = slice_past(start, count);
    match call {
        Call::ModifyVtlProtectionMask => (start, (past - start) as u8),
        Call::GetVpRegisters => (4 * start / 8, ((4 * past + 7) / 8 - 4 * start / 8) as u8),
        Call::SetVpRegisters => (4 * start, (4 * (past - start)) as u8),
        _ => (0, 0),
    }
}

impl VpState {
    /// The element at which a call begins, and how many it has.
    pub fn elements(&self) -> (u16, u16)
        ensures start { result.0 ≡ start_of (origin_of self.now) }
        ensures count { result.1 ≡ count_of (origin_of self.now) }
        ensures low { result.0 < 4096 }
        ensures few { result.1 < 4096 }
    {
        let value = word_of(&self.bank, &self.levels, Name::Rcx);
        let start = (value / (1 << 48) % (1 << 12)) as u16;
        let count = (value / (1 << 32) % (1 << 12)) as u16;
        (start, count)
    }

    /// The words of an input come next.
    pub fn words(&self, under: &mut Under)
        requires { IsHead (origin_of self.now) under.old }
        ensures { Moves self.now under.old under.new (λ from. words_rest from under.old) }
    {
        let site = under.head.site;
        under.stage = Stage::Header(Reads {
            page: site.page,
            index: (site.address % 4096 / 8) as u16,
            left: header_words(under.head.call),
            done: 0,
        });
    }

    /// A word of the header was read.
    pub fn header_read(&self, under: &mut Under, reads: Reads)
        requires head { IsHead (origin_of self.now) under.old }
        requires reads { ReadsIs reads (header_words_lem under.old.head.call) }
        ensures { Moves self.now under.old under.new (λ from. reads_rest reads under.old.header
            (reads_slice from (row_for under.old.head.call) under.old.head.site.address)) }
    {
        if reads.left > 0 {
            under.stage = Stage::Header(reads);
        } else {
            self.sliced(under);
        }
    }

    /// The header is read.
    fn sliced(&self, under: &mut Under)
        requires { IsHead (origin_of self.now) under.old }
        ensures { Moves self.now under.old under.new (λ from. reads_slice from (row_for under.old.head.call)
            under.old.head.site.address (header_of under.old)) }
    {
        let (start, count) = self.elements();
        let Head { call, site, .. } = under.head;
        let (first, left) = slice_place(call, start, count);
        let header = u16::from(header_words(call));
        let reads = Reads {
            page: site.page,
            index: (site.address % 4096 / 8) as u16 + header + first,
            left,
            done: 0,
        };
        self.slice_read(under, reads);
    }

    /// A word of the slice was read.
    pub fn slice_read(&self, under: &mut Under, reads: Reads)
        requires head { IsHead (origin_of self.now) under.old }
        requires reads { ReadsIs reads (slice_words (origin_of self.now) under.old) }
        ensures { Moves self.now under.old under.new (λ from. reads_rest reads under.old.slice
            (by_input from (row_for under.old.head.call).code (header_of under.old))) }
    {
        if reads.left > 0 {
            under.stage = Stage::Slice(reads);
        } else {
            self.given(under, reads.done);
        }
    }

    /// A hypercall has read its input, whose slice has so many words.
    fn given(&self, under: &mut Under, length: u8)
        requires head { IsHead (origin_of self.now) under.old }
        requires all { length ≡ slice_words (origin_of self.now) under.old }
        ensures { Moves self.now under.old under.new (λ from. by_input from (row_for under.old.head.call).code
            (header_of under.old) (take length under.old.slice)) }
    {
        match under.head.call {
            Call::FlushVirtualAddressSpace | Call::FlushVirtualAddressList => {
                under.depart(Asked::Flush);
            }
            Call::SendSyntheticClusterIpi => {
                under.stage = Stage::Quit(self.judged(&front_of(&under.header)));
            }
            Call::ModifyVtlProtectionMask => under.depart(Asked::Modify(length)),
            Call::EnablePartitionVtl => under.depart(Asked::EnablePartition),
            Call::EnableVpVtl => under.depart(Asked::EnableVp),
            Call::GetVpRegisters => self.getting(under),
            Call::SetVpRegisters => self.setting_all(under),
            Call::StartVirtualProcessor => under.depart(Asked::Start),
        }
    }

    /// The level whose registers a call names by its header.
    ///
    /// # Errors
    /// What refuses the header.
    fn target(&self, under: &Under) -> Result<Vtl, HvStatus>
        ensures fine { OnOk result (header_refusal (origin_of self.now) (take 2 under.now.header) ≡ None) }
        ensures level { IfOk result
            (λ level. level ≡ target_level_lem self.now.state.active (take 2 under.now.header)) }
        ensures refused { IfErr result
            (λ status. header_refusal (origin_of self.now) (take 2 under.now.header) ≡ Some status) }
    {
        let header = front_of(&under.header);
        let active = self.levels.active();
        match register_refusal(self.limits.vps, self.number, active, &header) {
            Some(status) => Err(status),
            None => Ok(target_level(active, &header)),
        }
    }

    /// A call that sets registers has read its slice.
    fn setting_all(&self, under: &mut Under)
        requires { start_of (origin_of self.now) < count_of (origin_of self.now) }
        ensures { Moves self.now under.old under.new (λ from. sets_by from (take 2 under.old.header)
            (take (words_between_lem 32 (start_of from) (past_of from)) under.old.slice)
            (header_refusal from (take 2 under.old.header))) }
    {
        match self.target(under) {
            Ok(target) => self.setting_in(under, target),
            Err(status) => under.leave(answered(status, self.elements().0)),
        }
    }

    /// A call sets registers of a level.
    fn setting_in(&self, under: &mut Under, target: Vtl)
        requires { start_of (origin_of self.now) < count_of (origin_of self.now) }
        ensures { Moves self.now under.old under.new (λ from. sets_from from target
            (settings (take (words_between_lem 32 (start_of from) (past_of from)) under.old.slice))) }
    {
        let (start, count) = self.elements();
        match write_in(
            &RepFrame::new(count, start),
            self.levels.active(),
            target,
            &under.slice,
        ) {
            Some(value) => under.depart(Asked::Write(value)),
            None => under.leave(Decided::Set(target)),
        }
    }

    /// A call that gets registers has read its slice.
    fn getting(&self, under: &mut Under)
        requires head { IsHead (origin_of self.now) under.old }
        requires call { under.old.head.call ≡ Call.GetVpRegisters }
        ensures { Moves self.now under.old under.new (λ from. gets_by from (take 2 under.old.header)
            (take (words_between_lem 4 (start_of from) (past_of from)) under.old.slice)
            (header_refusal from (take 2 under.old.header))) }
    {
        let Some(site) = under.head.output else {
            unreachable!()
        };
        match self.target(under) {
            Ok(target) => self.getting_in(under, target, site),
            Err(status) => under.leave(answered(status, self.elements().0)),
        }
    }

    /// A call gets registers of a level, whose output goes there.
    fn getting_in(&self, under: &mut Under, target: Vtl, site: Site)
        requires { OutputIs (origin_of self.now) site }
        ensures { Moves self.now under.old under.new (λ from. gets_from from target
            (slice_numbers from (take (words_between_lem 4 (start_of from) (past_of from)) under.old.slice))) }
    {
        let (start, count) = self.elements();
        let frame = RepFrame::new(count, start);
        match look_in(&frame, self.levels.active(), target, &under.slice) {
            Some(register) => under.depart(Asked::Look(register, site)),
            None => self.getting_out(under, target, site, frame),
        }
    }

    /// The place in its page at which the output of a slice begins.
    fn output_place(&self, site: Site) -> u16
        requires { OutputIs (origin_of self.now) site }
        ensures { result ≡ site.address % 4096 / 8 + 2 * start_of (origin_of self.now) }
    {
        let (start, _) = self.elements();
        (site.address % 4096 / 8) as u16 + 2 * start
    }

    /// The registers of a slice go out.
    fn getting_out(&self, under: &mut Under, target: Vtl, site: Site, frame: RepFrame)
        requires frame { frame ≡ frame_of (count_of (origin_of self.now)) (start_of (origin_of self.now)) }
        requires is { OutputIs (origin_of self.now) site }
        ensures { Moves self.now under.old under.new (λ from. puts_out from
            (slice_got from.state.active target frame under.old.slice from.state)
            (got_outcome from target frame under.old.slice)) }
    {
        let status = VpStatus {
            active: self.levels.active(),
            one_enabled: self.levels.enabled(Vtl::One),
        };
        let at = self.output_place(site);
        let mut frame = frame;
        let (count, end) = get_slice(
            &self.bank,
            status,
            target,
            &mut frame,
            &under.slice,
            &mut under.output,
        );
        // The frame is still within its call, which bounds the words.
        let (_next, _past) = frame.slice();
        under.make(put_words(site.page, at, count), decided_by(&frame, end));
    }
}

/// How an attempt is decided by what the slice of a call that gets registers comes to, whose elements the frame has
/// counted.
fn decided_by(frame: &RepFrame, end: SliceEnd) -> Decided
    requires { end_place (end_from end) ≡ frame.now.next }
    ensures outcome { (from : Origin) (under : Under)
        → outcome_of from under result ≡ slice_outcome from from.state [] (end_from end) }
    ensures is { (from : Origin) (under : Under) → DecidedIs from under result }
{
    match end {
        SliceEnd::Refused(status, _) => Decided::Replied(frame.finish(status).bits()),
        SliceEnd::GoesOn(next) => Decided::Part(next),
        SliceEnd::Complete(_) => Decided::Replied(frame.finish(HvStatus::SUCCESS).bits()),
    }
}

/// The first processor from `first` on and below `past` that has its bit.
fn next_in(bits: u8, first: u8, past: u8) -> Option<u8>
    requires few { past ≤ 8 }
    ensures next { MatchOption result (those_in bits first (past - first) ≡ [])
        (λ p. those_in bits first (past - first) ≡ p ∷ those_in bits (p + 1) (past - (p + 1))) }
    ensures below { IfSome result (λ p. p < past) }
{
    for p in first..past {
        if (bits >> p) % 2 == 1 {
            return Some(p);
        }
    }
    None
}

impl Sending {
    /// The next post.
    pub fn next_post(&self) -> Step
        ensures { (from : Origin) → IsNext (sends_now from self.now) (word_step result) }
    {
        Step::Post {
            vp: VpIndex(self.next),
            word: PendingWord::Vectors {
                level: self.interrupt.level,
                part: self.interrupt.vector / 64,
            },
            bits: 1 << (self.interrupt.vector % 64),
        }
    }
}

impl VpState {
    /// What is left where the processors from `first` on are still to be posted to.
    fn sending_on(&self, interrupt: Interrupt, first: u8) -> Sends
        requires { self.now.limits.vps ≤ 8 }
        ensures rest { sends_rest (origin_of self.now) result ≡ sends_from (origin_of self.now) interrupt first }
        ensures is { SendsIs (origin_of self.now) result }
    {
        match next_in(interrupt.processors, first, self.limits.vps) {
            Some(next) => Sends::Post(Sending { interrupt, next }),
            None => Sends::Over(HvStatus::SUCCESS),
        }
    }

    /// What a call that requests an interrupt comes to by its header.
    fn judged(&self, header: &[u64; 2]) -> Sends
        requires { self.now.limits.vps ≤ 8 }
        ensures rest { sends_rest (origin_of self.now) result ≡ interrupts (origin_of self.now) header.now }
        ensures is { SendsIs (origin_of self.now) result }
    {
        let caller = self.levels.active();
        match interrupt_refusal(self.limits.vps, caller, header) {
            Some(status) => Sends::Over(status),
            None => self.sending_on(interrupt_of(caller, header), 0),
        }
    }

    /// A call that requests an interrupt goes on outside of accesses.
    pub fn send(&self, under: &mut Under, sends: Sends)
        requires { SendsIs (origin_of self.now) sends }
        ensures { Moves self.now under.old under.new (λ from. sends_rest from sends) }
    {
        match sends {
            Sends::Post(sending) => under.stage = Stage::Send(sending),
            Sends::Over(status) => under.end(answered(status, 0)),
        }
    }

    /// A processor was posted to.
    pub fn sent(&self, under: &mut Under, sending: Sending)
        requires { SendIs (origin_of self.now) sending }
        ensures { Moves self.now under.old under.new (λ from. sends_from from sending.interrupt (sending.next + 1)) }
    {
        let sends = self.sending_on(sending.interrupt, sending.next + 1);
        self.send(under, sends);
    }

    /// The request of what is asked.
    pub fn request(&self, under: &Under, asked: Asked) -> Request
        requires { AskedIs (origin_of self.now) asked }
        ensures request { result ≡ request_for (origin_of self.now) under.now asked }
        ensures slice { IsSlice result.call }
    {
        let (start, count) = self.elements();
        let call = match asked {
            Asked::EnablePartition => PartCall::EnablePartition(front_of(&under.header)),
            Asked::EnableVp => PartCall::EnableVp(front_of(&under.header)),
            Asked::Start => PartCall::Start(front_of(&under.header)),
            Asked::Modify(length) => PartCall::Modify {
                header: front_of(&under.header),
                pages: pages_of(&under.slice, length),
                start,
                total: count,
            },
            Asked::Flush => PartCall::Flush { total: count },
            Asked::Write(value) => PartCall::WriteConfig(value),
            Asked::Look(Look::Status, _) => PartCall::ReadStatus,
            Asked::Look(Look::Config, _) => PartCall::ReadConfig,
        };
        self.asks(call)
    }
}

/// The first words of a slice, so many.
fn pages_of(words: &[u64; 32], length: u8) -> ArrayVec<u64, 8>
    requires { length ≤ 8 }
    ensures { result.items ≡ take length words.now }
{
    let mut pages = ArrayVec::from(front_of::<8>(words));
    pages.truncate(usize::from(length));
    pages
}

impl VpState {
    /// A slice of pages is served: the call is refused at an element, goes on at one, or is complete.
    fn slice_served(&self, under: &mut Under, reply: &Reply)
        requires { reply.now.done < 4096 }
        ensures { Moves self.now under.old under.new (λ from. Ends (slice_outcome from from.state []
            (replied_end reply.now.status reply.now.done (count_of from)))) }
    {
        let (_, count) = self.elements();
        if reply.status == HvStatus::SUCCESS && reply.done < count {
            under.end(Decided::Part(reply.done));
        } else {
            under.end(answered(reply.status, reply.done));
        }
    }

    /// The call is served: where it enables a level, the reply has that level's context.
    fn served(&self, under: &mut Under, reply: &Reply)
        requires { reply.now.done < 4096 }
        ensures { Moves self.now under.old under.new (λ from. Ends (replied from reply.now)) }
    {
        let status = reply.status;
        let done = reply.done;
        let value = ResultValue { status, done }.bits();
        match &reply.context {
            Some(context) => {
                under.header[..28].copy_from_slice(&context.1);
                under.end(Decided::Enabled(context.0, value));
            }
            None => under.end(Decided::Replied(value)),
        }
    }

    /// The value of the partition's register goes out to the output, in an access of its own.
    fn put_value(&self, under: &mut Under, site: Site, reply: &Reply)
        requires done { reply.now.done < 4096 }
        requires is { OutputIs (origin_of self.now) site }
        ensures { Moves self.now under.old under.new (λ from. looked_by from reply.now) }
    {
        put_front(&mut under.output, reply.value, 0);
        let at = self.output_place(site);
        under.make(
            put_words(site.page, at, 2),
            answered(reply.status, reply.done),
        );
        let behind = Behind::Make;
        under.stage = Stage::Enter(Inner::Page(Gate { site, behind }));
    }

    /// Goes on by the reply to what was asked.
    pub fn replied(&self, under: &mut Under, asked: Asked, reply: &Reply)
        requires is { AskedIs (origin_of self.now) asked }
        requires done { reply.now.done < 4096 }
        ensures rest { rest_of (origin_of self.now) under.new ≡ by_answer (origin_of self.now) asked reply.now }
        ensures is { StageIs (origin_of self.now) under.new }
        ensures op { under.new.op ≡ under.old.op }
    {
        match asked {
            Asked::Modify(_) => self.slice_served(under, reply),
            Asked::Look(_, site) => self.put_value(under, site, reply),
            _ => self.served(under, reply),
        }
    }
}
