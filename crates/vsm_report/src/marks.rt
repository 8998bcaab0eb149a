// The lines of marks.
ghost use Rattle.std.specs.Prelude.{◌≡◌, ◌+◌, ◌≤◌, ◌++◌, length};
ghost use Rattle.vsm_report.specs.Gathering.{Gathers};
ghost use Rattle.vsm_report.specs.Words.{mask_word};
ghost use Rattle.vsm_report.specs.Marks.{operation_at, place_text, bare_text, valued_text, granted_text, again_text, denied_text, register_fault_text, fault_text, register_text, value_text, intercept_text, hit_text, part_text, reply_text, entered_text, plain_text, eom_text, what_text, start_text, attempt_text, mark_text};

use crate::pieces::{Piece, put_pieces};
use crate::text_buffer::TextBuffer;
use crate::words::{
    access_word, eom_word, fault_word, level_number, mask_piece, op_word, posted_word, value_piece,
};
use guest_script::Script;
use vsm_base::{Mask, Name, Sink, VpIndex, Vtl, WriteFailed};
use vsm_core::{Denial, EomWord, Grant, GuestFault, Mark, Op, Posted, What};

#[tactic(auto, unfolding(crate::specs::Marks::operation_at))]
fn operation_at(script: &Script, vp: VpIndex, mark: &Mark) -> Option<Op>
    ensures { result ≡ operation_at script.now vp mark.now }
{
    let programs = script.programs.as_slice();
    let program = programs.get(vp.0 as usize)?;
    let operations = match mark.level {
        Vtl::Zero => program.zero.as_slice(),
        Vtl::One => program.one.as_slice(),
    };
    operations.get(mark.rip as usize).copied()
}

// Adds the place of a mark, where there is room.
#[tactic(auto, unfolding(crate::specs::Marks::place_text))]
fn add_place(buffer: &mut TextBuffer, vp: VpIndex, mark: &Mark, op: &Op)
    requires { length buffer.old + 72 ≤ 16384 }
    ensures { buffer.new ≡ buffer.old ++ place_text vp mark.now op.now }
{
    buffer.add_decimal(vp.0 as u64);
    buffer.add(b".");
    buffer.add_decimal(level_number(mark.level));
    buffer.add(b" ");
    buffer.add_decimal(mark.rip);
    buffer.add(b" ");
    buffer.add(op_word(op));
}

fn put_place<K: Sink>(
    sink: &mut K,
    buffer: &mut TextBuffer,
    vp: VpIndex,
    mark: &Mark,
    op: &Op,
) -> Result<(), WriteFailed>
    ensures { Gathers (K.taken sink.old) buffer.old (K.taken sink.new) buffer.new (K.faults sink.old) (K.faults sink.new) result (place_text vp mark.now op.now) }
{
    buffer.make_room(sink, 72)?;
    add_place(buffer, vp, mark, op);
    Ok(())
}

// An outcome that has nothing more to tell.
fn put_bare<K: Sink>(sink: &mut K, buffer: &mut TextBuffer) -> Result<(), WriteFailed>
    ensures { Gathers (K.taken sink.old) buffer.old (K.taken sink.new) buffer.new (K.faults sink.old) (K.faults sink.new) result bare_text }
{
    buffer.put(sink, b"\n")
}

// Adds the word of a mask, where there is room.
fn add_mask(buffer: &mut TextBuffer, mask: Option<Mask>)
    requires { length buffer.old + 20 ≤ 16384 }
    ensures text { buffer.new ≡ buffer.old ++ mask_word mask }
    ensures length { length buffer.new ≤ length buffer.old + 20 }
{
    match mask {
        None => buffer.add_byte(b'-'),
        Some(mask) => buffer.add_decimal(mask.bits() as u64),
    }
}

// Adds what an access that was granted tells, where there is room.
fn add_valued(buffer: &mut TextBuffer, head: &[u8], grant: &Grant)
    requires { length buffer.old + length head.now + 97 ≤ 16384 }
    ensures { buffer.new ≡ buffer.old ++ valued_text head.now grant.now }
{
    buffer.add(head);
    buffer.add_decimal(grant.page.0 as u64);
    buffer.add(b" mask ");
    add_mask(buffer, grant.mask);
    buffer.add(b" gen ");
    buffer.add_decimal(grant.generation);
    buffer.add(b" value 0x");
    buffer.add_hex(grant.value);
    buffer.add_byte(b'\n');
}

fn put_valued<K: Sink>(
    sink: &mut K,
    buffer: &mut TextBuffer,
    head: &[u8],
    grant: &Grant,
) -> Result<(), WriteFailed>
    requires { length head.now ≤ 12 }
    ensures { Gathers (K.taken sink.old) buffer.old (K.taken sink.new) buffer.new (K.faults sink.old) (K.faults sink.new) result (valued_text head.now grant.now) }
{
    buffer.make_room(sink, 109)?;
    add_valued(buffer, head, grant);
    Ok(())
}

fn put_granted<K: Sink>(
    sink: &mut K,
    buffer: &mut TextBuffer,
    op: &Op,
    grant: &Grant,
) -> Result<(), WriteFailed>
    ensures { Gathers (K.taken sink.old) buffer.old (K.taken sink.new) buffer.new (K.faults sink.old) (K.faults sink.new) result (granted_text op.now grant.now) }
{
    match op {
        Op::Load(_, _) | Op::Store(_, _) | Op::Spin(_, _) => put_valued(
            sink,
            buffer,
            b" ok page ",
            grant,
        ),
        Op::Exec(_) => put_pieces(
            sink,
            buffer,
            &[
                Piece::Text(b" ok page "),
                Piece::Decimal(grant.page.0 as u64),
                Piece::Text(b" mask "),
                mask_piece(grant.mask),
                Piece::Text(b" gen "),
                Piece::Decimal(grant.generation),
                Piece::Text(b"\n"),
            ],
        ),
        _ => put_bare(sink, buffer),
    }
}

fn put_again<K: Sink>(
    sink: &mut K,
    buffer: &mut TextBuffer,
    op: &Op,
    grant: &Grant,
) -> Result<(), WriteFailed>
    ensures { Gathers (K.taken sink.old) buffer.old (K.taken sink.new) buffer.new (K.faults sink.old) (K.faults sink.new) result (again_text op.now grant.now) }
{
    match op {
        Op::Spin(_, _) => put_valued(sink, buffer, b" again page ", grant),
        _ => put_bare(sink, buffer),
    }
}

fn put_denied<K: Sink>(
    sink: &mut K,
    buffer: &mut TextBuffer,
    denial: &Denial,
) -> Result<(), WriteFailed>
    ensures { Gathers (K.taken sink.old) buffer.old (K.taken sink.new) buffer.new (K.faults sink.old) (K.faults sink.new) result (denied_text denial.now) }
{
    let mask = denial.mask.bits();
    let access = access_word(denial.access);
    let posted = posted_word(denial.posted);
    put_pieces(
        sink,
        buffer,
        &[
            Piece::Text(b" denied page "),
            Piece::Decimal(denial.page.0 as u64),
            Piece::Text(b" mask "),
            Piece::Decimal(mask as u64),
            Piece::Text(b" gen "),
            Piece::Decimal(denial.generation),
            Piece::Text(b" access "),
            Piece::Text(access),
            Piece::Text(b" "),
            Piece::Text(posted),
            Piece::Text(b"\n"),
        ],
    )
}

fn put_register_fault<K: Sink>(
    sink: &mut K,
    buffer: &mut TextBuffer,
    name: Name,
    kind: GuestFault,
) -> Result<(), WriteFailed>
    ensures { Gathers (K.taken sink.old) buffer.old (K.taken sink.new) buffer.new (K.faults sink.old) (K.faults sink.new) result (register_fault_text name kind) }
{
    let register = name.text();
    let word = fault_word(kind);
    put_pieces(
        sink,
        buffer,
        &[
            Piece::Text(b" "),
            Piece::Text(register),
            Piece::Text(b" fault "),
            Piece::Text(word),
            Piece::Text(b"\n"),
        ],
    )
}

fn put_fault<K: Sink>(
    sink: &mut K,
    buffer: &mut TextBuffer,
    op: &Op,
    kind: GuestFault,
) -> Result<(), WriteFailed>
    ensures { Gathers (K.taken sink.old) buffer.old (K.taken sink.new) buffer.new (K.faults sink.old) (K.faults sink.new) result (fault_text op.now kind) }
{
    match op {
        Op::Set(name, _) => put_register_fault(sink, buffer, *name, kind),
        Op::Get(name) => put_register_fault(sink, buffer, *name, kind),
        _ => {
            let word = fault_word(kind);
            put_pieces(
                sink,
                buffer,
                &[
                    Piece::Text(b" fault "),
                    Piece::Text(word),
                    Piece::Text(b"\n"),
                ],
            )
        }
    }
}

fn put_register<K: Sink>(
    sink: &mut K,
    buffer: &mut TextBuffer,
    name: Name,
    value: u128,
) -> Result<(), WriteFailed>
    ensures { Gathers (K.taken sink.old) buffer.old (K.taken sink.new) buffer.new (K.faults sink.old) (K.faults sink.new) result (register_text name value) }
{
    let register = name.text();
    put_pieces(
        sink,
        buffer,
        &[
            Piece::Text(b" "),
            Piece::Text(register),
            Piece::Text(b" 0x"),
            value_piece(name, value),
            Piece::Text(b"\n"),
        ],
    )
}

fn put_value<K: Sink>(
    sink: &mut K,
    buffer: &mut TextBuffer,
    op: &Op,
    value: u128,
) -> Result<(), WriteFailed>
    ensures { Gathers (K.taken sink.old) buffer.old (K.taken sink.new) buffer.new (K.faults sink.old) (K.faults sink.new) result (value_text op.now value) }
{
    match op {
        Op::Get(name) => put_register(sink, buffer, *name, value),
        Op::Ack(name) => put_register(sink, buffer, *name, value),
        _ => put_bare(sink, buffer),
    }
}

fn put_intercept<K: Sink>(
    sink: &mut K,
    buffer: &mut TextBuffer,
    name: Name,
    posted: Posted,
) -> Result<(), WriteFailed>
    ensures { Gathers (K.taken sink.old) buffer.old (K.taken sink.new) buffer.new (K.faults sink.old) (K.faults sink.new) result (intercept_text name posted) }
{
    let register = name.text();
    let word = posted_word(posted);
    put_pieces(
        sink,
        buffer,
        &[
            Piece::Text(b" "),
            Piece::Text(register),
            Piece::Text(b" intercept "),
            Piece::Text(word),
            Piece::Text(b"\n"),
        ],
    )
}

fn put_hit<K: Sink>(
    sink: &mut K,
    buffer: &mut TextBuffer,
    op: &Op,
    posted: Posted,
) -> Result<(), WriteFailed>
    ensures { Gathers (K.taken sink.old) buffer.old (K.taken sink.new) buffer.new (K.faults sink.old) (K.faults sink.new) result (hit_text op.now posted) }
{
    match op {
        Op::Set(name, _) => put_intercept(sink, buffer, *name, posted),
        Op::Get(name) => put_intercept(sink, buffer, *name, posted),
        _ => put_bare(sink, buffer),
    }
}

fn put_part<K: Sink>(
    sink: &mut K,
    buffer: &mut TextBuffer,
    op: &Op,
    next: u16,
) -> Result<(), WriteFailed>
    ensures { Gathers (K.taken sink.old) buffer.old (K.taken sink.new) buffer.new (K.faults sink.old) (K.faults sink.new) result (part_text op.now next) }
{
    match op {
        Op::Hypercall => put_pieces(
            sink,
            buffer,
            &[
                Piece::Text(b" part "),
                Piece::Decimal(next as u64),
                Piece::Text(b"\n"),
            ],
        ),
        _ => put_bare(sink, buffer),
    }
}

fn put_reply<K: Sink>(
    sink: &mut K,
    buffer: &mut TextBuffer,
    op: &Op,
    value: u64,
) -> Result<(), WriteFailed>
    ensures { Gathers (K.taken sink.old) buffer.old (K.taken sink.new) buffer.new (K.faults sink.old) (K.faults sink.new) result (reply_text op.now value) }
{
    match op {
        Op::Hypercall => put_pieces(
            sink,
            buffer,
            &[
                Piece::Text(b" done 0x"),
                Piece::Hex(value),
                Piece::Text(b"\n"),
            ],
        ),
        _ => put_bare(sink, buffer),
    }
}

fn put_entered<K: Sink>(sink: &mut K, buffer: &mut TextBuffer, op: &Op) -> Result<(), WriteFailed>
    ensures { Gathers (K.taken sink.old) buffer.old (K.taken sink.new) buffer.new (K.faults sink.old) (K.faults sink.new) result (entered_text op.now) }
{
    match op {
        Op::Poll => buffer.put(sink, b" enter\n"),
        _ => put_bare(sink, buffer),
    }
}

fn put_plain<K: Sink>(sink: &mut K, buffer: &mut TextBuffer, op: &Op) -> Result<(), WriteFailed>
    ensures { Gathers (K.taken sink.old) buffer.old (K.taken sink.new) buffer.new (K.faults sink.old) (K.faults sink.new) result (plain_text op.now) }
{
    match op {
        Op::Set(name, _) => {
            let register = name.text();
            put_pieces(
                sink,
                buffer,
                &[
                    Piece::Text(b" "),
                    Piece::Text(register),
                    Piece::Text(b" ok\n"),
                ],
            )
        }
        Op::Jump(_)
        | Op::JumpNe(_, _, _)
        | Op::Invlpg(_)
        | Op::VtlCall
        | Op::VtlReturn
        | Op::Poll
        | Op::Eoi => buffer.put(sink, b" ok\n"),
        _ => put_bare(sink, buffer),
    }
}

fn put_eom<K: Sink>(
    sink: &mut K,
    buffer: &mut TextBuffer,
    op: &Op,
    word: EomWord,
) -> Result<(), WriteFailed>
    ensures { Gathers (K.taken sink.old) buffer.old (K.taken sink.new) buffer.new (K.faults sink.old) (K.faults sink.new) result (eom_text op.now word) }
{
    match op {
        Op::Eom => {
            let done = eom_word(word);
            put_pieces(
                sink,
                buffer,
                &[Piece::Text(b" "), Piece::Text(done), Piece::Text(b"\n")],
            )
        }
        _ => put_bare(sink, buffer),
    }
}

// A pair of operation and outcome that has no text of its own ends behind the operation. A start has no operation, and
// doesn't come here.
fn put_what<K: Sink>(
    sink: &mut K,
    buffer: &mut TextBuffer,
    op: &Op,
    what: &What,
) -> Result<(), WriteFailed>
    ensures { Gathers (K.taken sink.old) buffer.old (K.taken sink.new) buffer.new (K.faults sink.old) (K.faults sink.new) result (what_text op.now what.now) }
{
    match what {
        What::Granted(grant) => put_granted(sink, buffer, op, grant),
        What::Again(grant) => put_again(sink, buffer, op, grant),
        What::Denied(denial) => put_denied(sink, buffer, denial),
        What::Fault(kind) => put_fault(sink, buffer, op, *kind),
        What::Value(value) => put_value(sink, buffer, op, *value),
        What::Hit(posted) => put_hit(sink, buffer, op, *posted),
        What::Part(next) => put_part(sink, buffer, op, *next),
        What::Reply(value) => put_reply(sink, buffer, op, *value),
        What::Entered => put_entered(sink, buffer, op),
        What::Plain => put_plain(sink, buffer, op),
        What::Eom(word) => put_eom(sink, buffer, op, *word),
        What::Started => put_bare(sink, buffer),
    }
}

fn put_start<K: Sink>(
    sink: &mut K,
    buffer: &mut TextBuffer,
    vp: VpIndex,
    mark: &Mark,
) -> Result<(), WriteFailed>
    ensures { Gathers (K.taken sink.old) buffer.old (K.taken sink.new) buffer.new (K.faults sink.old) (K.faults sink.new) result (start_text vp mark.now) }
{
    let level = level_number(mark.level);
    put_pieces(
        sink,
        buffer,
        &[
            Piece::Decimal(vp.0 as u64),
            Piece::Text(b"."),
            Piece::Decimal(level),
            Piece::Text(b" "),
            Piece::Decimal(mark.rip),
            Piece::Text(b" start ok\n"),
        ],
    )
}

fn put_attempt<K: Sink>(
    sink: &mut K,
    buffer: &mut TextBuffer,
    script: &Script,
    vp: VpIndex,
    mark: &Mark,
) -> Result<(), WriteFailed>
    ensures { Gathers (K.taken sink.old) buffer.old (K.taken sink.new) buffer.new (K.faults sink.old) (K.faults sink.new) result (attempt_text vp mark.now (operation_at script.now vp mark.now)) }
{
    let Some(op) = operation_at(script, vp, mark) else {
        return Ok(());
    };
    put_place(sink, buffer, vp, mark, &op)?;
    put_what(sink, buffer, &op, &mark.what)
}

/// Puts the line of a processor's mark; none where no operation stands at its place.
pub fn put_mark<K: Sink>(
    sink: &mut K,
    buffer: &mut TextBuffer,
    script: &Script,
    vp: VpIndex,
    mark: &Mark,
) -> Result<(), WriteFailed>
    ensures { Gathers (K.taken sink.old) buffer.old (K.taken sink.new) buffer.new (K.faults sink.old) (K.faults sink.new) result (mark_text script.now vp mark.now) }
{
    match mark.what {
        What::Started => put_start(sink, buffer, vp, mark),
        _ => put_attempt(sink, buffer, script, vp, mark),
    }
}
