ghost use Rattle.std.specs.Prelude.{◌≡◌, [], ◌∷◌, decimal};
ghost use Rattle.text_out.specs.Wrote.{Wrote};
ghost use Rattle.text_out.specs.Words.{line_text};
ghost use Rattle.call_endings.specs.Changes.{Writes, change};
ghost use Rattle.call_endings.specs.Complaints.{class_word as word_of_class, limit_word as word_of_limit, name_of, refusal_line, refusal_status, text_word as word_of_text};
ghost use Rattle.call_endings.specs.Stops.{Tells};
ghost use Rattle.command_answers.specs.declared.refusal.Refusal.TheVariants.{Count};

use command_answers::{ClassReason, LimitReason, Refusal, Status, Stop, TextReason};
use io_edge::{Sink, WriteFault};
use sanlp::ArrayDecl;
use text_out::{TextWriter, Word, Writer, write_line};

/// The status of a program that has told a refusal.
pub fn refusal_status(refusal: &Refusal) -> Status
    ensures { result ≡ refusal_status refusal.now }
{
    match refusal {
        Refusal::Usage => Status::WordsRefused,
        Refusal::TooLong | Refusal::NoPart => Status::BundleRefused,
        Refusal::Text(_, _) => Status::TextRefused,
        Refusal::Class(_, _) => Status::ClassRefused,
        Refusal::Limit(_, _) | Refusal::Script(_, _) => Status::LimitPassed,
        Refusal::UnknownArray(_)
        | Refusal::Twice(_)
        | Refusal::Missing(_, _)
        | Refusal::Count(_, _, _)
        | Refusal::NotANumber(_, _) => Status::DataRefused,
    }
}

fn text_word(reason: TextReason) -> &'static [u8]
    ensures { result.now ≡ word_of_text reason }
{
    match reason {
        TextReason::BadByte => b"text: BadByte",
        TextReason::OpenComment => b"text: OpenComment",
        TextReason::LargeNumber => b"text: LargeNumber",
        TextReason::TooMany => b"text: TooMany",
        TextReason::Syntax => b"text: Syntax",
    }
}

fn class_word(reason: ClassReason) -> &'static [u8]
    ensures { result.now ≡ word_of_class reason }
{
    match reason {
        ClassReason::UnknownName => b"class: UnknownName",
        ClassReason::Duplicate => b"class: Duplicate",
        ClassReason::Unbound => b"class: Unbound",
        ClassReason::NotAffine => b"class: NotAffine",
        ClassReason::WrongCount => b"class: WrongCount",
        ClassReason::ElseForm => b"class: ElseForm",
        ClassReason::StepMax => b"class: StepMax",
        ClassReason::StepRange => b"class: StepRange",
    }
}

fn limit_word(reason: LimitReason) -> &'static [u8]
    ensures { result.now ≡ word_of_limit reason }
{
    match reason {
        LimitReason::TooManyProcesses => b"limit: TooManyProcesses",
        LimitReason::TooDeep => b"limit: TooDeep",
        LimitReason::TooManyReads => b"limit: TooManyReads",
        LimitReason::TooManyRows => b"limit: TooManyRows",
        LimitReason::Large => b"limit: Large",
        LimitReason::Size => b"limit: Size",
        LimitReason::LoopValue => b"limit: LoopValue",
    }
}

fn name_of(arrays: &[ArrayDecl], number: u32) -> &[u8]
    ensures { result.now ≡ name_of arrays.now number }
{
    match arrays.get(number as usize) {
        Some(array) => array.name.as_slice(),
        None => &[],
    }
}

/// Writes the line of a reason that has one number.
fn write_numbered<W: TextWriter>(reason: &[u8], number: u64, out: &mut W)
    ensures { Wrote W.given out.old out.new (line_text (reason.now ∷ decimal number ∷ [])) }
{
    write_line(&[Word::Text(reason), Word::Number(number)], out);
}

/// Writes the line of a reason that has two numbers.
fn write_paired<W: TextWriter>(reason: &[u8], first: u64, second: u64, out: &mut W)
    ensures { Wrote W.given out.old out.new
        (line_text (reason.now ∷ decimal first ∷ decimal second ∷ [])) }
{
    let words = [
        Word::Text(reason),
        Word::Number(first),
        Word::Number(second),
    ];
    write_line(&words, out);
}

/// Writes the line of a record that has another number of values than its array has cells.
fn write_count<W: TextWriter>(number: u64, got: u64, want: u64, out: &mut W)
    ensures { Wrote W.given out.old out.new (refusal_line (Count number got want)) }
{
    let words = [
        Word::Text(b"data: Count"),
        Word::Number(number),
        Word::Number(got),
        Word::Number(want),
    ];
    write_line(&words, out);
}

fn write_refusal_line<W: TextWriter>(refusal: &Refusal, out: &mut W)
    ensures { Wrote W.given out.old out.new (refusal_line refusal.now) }
{
    match refusal {
        Refusal::Usage => write_line(
            &[Word::Text(b"usage: compaan COMMAND [--policy seq|down] [NAME=VALUE]...")],
            out,
        ),
        Refusal::TooLong => write_line(&[Word::Text(b"bundle: TooLong")], out),
        Refusal::NoPart => write_line(&[Word::Text(b"bundle: NoPart")], out),
        Refusal::Text(reason, byte) => write_numbered(text_word(*reason), *byte, out),
        Refusal::Class(reason, byte) => write_numbered(class_word(*reason), *byte, out),
        Refusal::Limit(reason, number) => write_numbered(limit_word(*reason), *number, out),
        Refusal::Script(process, events) => {
            write_paired(b"limit: Script", u64::from(*process), *events, out)
        }
        Refusal::UnknownArray(number) => write_numbered(b"data: UnknownArray", *number, out),
        Refusal::Twice(number) => write_numbered(b"data: Twice", *number, out),
        Refusal::Missing(arrays, array) => {
            let words = [
                Word::Text(b"data: Missing"),
                Word::Text(name_of(arrays.as_slice(), *array)),
            ];
            write_line(&words, out)
        }
        Refusal::Count(number, got, want) => write_count(*number, *got, *want, out),
        Refusal::NotANumber(number, field) => {
            write_paired(b"data: NotANumber", *number, *field, out)
        }
    }
}

/// Writes the line of a refusal. It takes no memory.
pub fn write_refusal<K: Sink>(refusal: &Refusal, sink: &mut K) -> Result<(), WriteFault>
    ensures { Writes (change K.held K.faults sink.old sink.new) (refusal_line refusal.now) result }
{
    let mut out = Writer::new(sink);
    write_refusal_line(refusal, &mut out);
    out.finish()
}

/// Tells why the work stopped, and gives the status: a refusal on the complaint sink, and of a fault of the source or want of memory
/// nothing. It takes no memory.
pub fn tell_stop<E: Sink>(stop: Stop, complaint: &mut E) -> Status
    ensures { Tells (change E.held E.faults complaint.old complaint.new) stop result }
{
    match stop {
        Stop::Refused(refusal) => match write_refusal(&refusal, complaint) {
            Ok(()) => refusal_status(&refusal),
            Err(_) => Status::OutputFailed,
        },
        Stop::ReadFault => Status::InputFailed,
        Stop::Memory => Status::NoMemory,
    }
}
