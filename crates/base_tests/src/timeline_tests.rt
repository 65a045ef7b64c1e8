//! The shared history: the lengths that notes read, and what they know behind a join and a meeting.

ghost use Rattle.std.specs.Prelude.{◌≡◌, ◌<◌, ◌^◌, ◌++◌, [], ◌∷◌, length};

use std::marker::Brand;
use std::test::Fail;
use timeline::{Names, Note, OfTimeline, Opened, Pen, Timeline};

/// Appends a number. The call names it.
fn append_number<J: OfTimeline, N: Names<u64>>(
    line: &Timeline<u64, J>,
    pen: &mut Pen<u64, J>,
    _number: u64,
)
    requires named { N.next ≡ _number ∷ [] }
    requires room { length pen.old < 2 ^ 50 }
    ensures { pen.new ≡ pen.old ++ _number ∷ [] }
{
    line.append::<N>(pen);
}

/// Two notes that know two numbers, of a history that has a third one by then.
fn two_notes<J: OfTimeline>(
    line: &Timeline<u64, J>,
    pen: &mut Pen<u64, J>,
) -> (Note<u64, J>, Note<u64, J>)
    requires { pen.old ≡ [] }
    ensures pen { pen.new ≡ 7 ∷ 8 ∷ 9 ∷ [] }
    ensures notes { (result.0.list ≡ 7 ∷ 8 ∷ []) × (result.1.list ≡ 7 ∷ 8 ∷ []) }
{
    append_number::<J, Brand>(line, pen, 7);
    append_number::<J, Brand>(line, pen, 8);
    let mut note = line.note(pen);
    let other = line.split(&mut note);
    append_number::<J, Brand>(line, pen, 9);
    (note, other)
}

/// The lengths that a note reads before and behind the join of the other one.
fn lengths_read<J: OfTimeline>(opened: Opened<u64>) -> (u64, u64)
    requires table { opened.table ≡ J.table }
    requires none { opened.list ≡ [] }
{
    let (line, mut pen) = Timeline::<u64, J>::new(opened);
    let (mut note, other) = two_notes(&line, &mut pen);
    let before = line.look(&mut note);
    line.join(&mut note, other);
    (before, line.look(&mut note))
}

#[test]
fn notes_read_the_length_of_the_history(rt: HostRuntime) -> Result<(), Fail> {
    let opened = Opened::<u64>::new(rt.alloc())?;
    assert_eq!(rt; lengths_read::<Brand>(opened), (3, 3));
    Ok(())
}

/// Appends a number to a history that has no name yet. The call names it.
fn find_number<N: Names<u64>>(opened: &mut Opened<u64>, _number: u64)
    requires named { N.next ≡ _number ∷ [] }
    requires room { length opened.old.list < 2 ^ 50 }
    ensures list { opened.new.list ≡ opened.old.list ++ _number ∷ [] }
    ensures table { opened.new.table ≡ opened.old.table }
{
    opened.append::<N>();
}

/// The length that a note reads that has met the pen of a history of two found numbers and one
/// that was appended behind them.
fn length_met<J: OfTimeline>(opened: Opened<u64>) -> u64
    requires name { opened.table ≡ J.table }
    requires found { opened.list ≡ 5 ∷ 6 ∷ [] }
{
    let (line, mut pen) = Timeline::<u64, J>::new(opened);
    let mut note = line.note(&mut pen);
    append_number::<J, Brand>(&line, &mut pen, 7);
    line.meet(&mut pen, &mut note);
    look_at_three(&line, &mut note)
}

/// What a note of these three numbers reads.
fn look_at_three<J: OfTimeline>(line: &Timeline<u64, J>, note: &mut Note<u64, J>) -> u64
    requires { note.old.list ≡ 5 ∷ 6 ∷ 7 ∷ [] }
{
    line.look(note)
}

#[test]
fn a_found_history_goes_on(rt: HostRuntime) -> Result<(), Fail> {
    let mut opened = Opened::<u64>::new(rt.alloc())?;
    find_number::<Brand>(&mut opened, 5);
    find_number::<Brand>(&mut opened, 6);
    assert_eq!(rt; length_met::<Brand>(opened), 3);
    Ok(())
}
