// What the tests look at after a call. Before it, every byte of the room is a dot.
use answers::AnswerFault;
use faults::Fault;
use std::process::Abort;
use std::test::Fail;

// The text stands at the front of the room, and nothing but dots after it.
pub(crate) fn check_written(
    rt: &impl Abort,
    room: &[u8],
    answer: Result<usize, AnswerFault>,
    text: &str,
) -> Result<(), Fail> {
    let count = answer?;
    assert_eq!(rt; count, text.len());
    assert!(rt; count <= room.len());
    assert_eq!(rt; &room[..count], text.as_bytes());
    check_dots(rt, &room[count..])
}

// The call was refused, and the room holds nothing but dots.
pub(crate) fn check_refused(
    rt: &impl Abort,
    room: &[u8],
    answer: Result<usize, AnswerFault>,
) -> Result<(), Fail> {
    let Err(fault) = answer else {
        return Err(Fail::new("a line was written"));
    };
    assert_eq!(rt; fault.number(), 40);
    check_dots(rt, room)
}

// In rooms of every size below N, the text is written if the room is as long as it, and refused if not.
pub(crate) fn check_rooms<const N: usize, F: Fn(&mut [u8]) -> Result<usize, AnswerFault>>(
    rt: &impl Abort,
    dots: [u8; N],
    text: &str,
    call: F,
) -> Result<(), Fail>
    requires { F.IsAlwaysCallable call }
{
    for size in 0..N {
        let mut bytes = dots;
        let room = &mut bytes[..size];
        let answer = call(room);
        if size < text.len() {
            check_refused(rt, room, answer)?;
        } else {
            check_written(rt, room, answer, text)?;
        }
    }
    Ok(())
}

fn check_dots(rt: &impl Abort, bytes: &[u8]) -> Result<(), Fail> {
    for byte in bytes {
        assert_eq!(rt; *byte, b'.');
    }
    Ok(())
}
