// A desk that is handed on, with what its start and its turns print: the example of document 01, and a sheet that is at fault.
use crate::program::start;
use crate::{Desk, Output, Stand};
use arrayvec::ArrayString;

// Room for two lines, which is enough for a start.
const TWO_LINES: usize = 2 * line::LINE_ROOM;

// A desk owns its card and its draft, so it outlives the function that began it.
fn begun<'a>(sheet: &'a str, out: &mut Output) -> Option<(Desk, Stand<'a>)> {
    start(sheet.as_bytes(), out)
}

#[test]
fn a_desk_is_handed_on(rt: HostRuntime) {
    let sheet =
        "rows kinds\n5 CCB\ncall task column kind bottom top\nB 0 0 C 0 2\nB 0 1 C -2 2\nB 0 2 B 1 6\nL 0 0 - 0 0\nP 7 0 - 4 0\nL 0 0 - 0 0\nN 0 0 - 0 0\nB 0 0 C 0 4\nL 0 0 - 0 0\nC 0 0 - 0 0\nR 8 0 - 0 0\nR 7 0 - 0 0\n";
    let lines = [
        "",
        "",
        "",
        "7 1 0 4 10 4\n",
        "8 0 0 0 0 0\n",
        "9 -9 0 0 0 0\n",
        "",
        "",
        "12 3 0 0 2 0\n12 3 0 6 2 6\n12 3 1 6 2 6\n",
        "13 0 0 0 0 0\n",
        "14 -11 0 0 0 0\n",
        "15 0 0 0 0 0\n",
    ];
    let mut out = Output::new();
    let started = begun(sheet, &mut out);
    assert_eq!(rt; out.as_str(), "line answer column first step last\n");
    assert!(rt; started.is_some());
    let Some((mut desk, first)) = started else {
        return;
    };
    let mut stand = Some(first);
    for line in lines {
        assert!(rt; stand.is_some());
        if let Some(at) = stand {
            stand = desk.turn(at, &mut out);
        }
        assert_eq!(rt; out.as_str(), line);
    }
    assert!(rt; stand.is_none());
    // The draft is that of line 11, and the card, whose task was released, that of line 2.
    assert_eq!(rt; desk.draft.bytes.as_slice(), [0, 0, 0, 0, 4, 0].as_slice());
    let mut empty = [0u8; model::RECORD_SIZE];
    assert!(rt; card::new(&mut empty, 5, &[0, 0, 1]).is_ok());
    assert!(rt; desk.card.as_slice() == empty.as_slice());
}

#[test]
fn a_sheet_at_fault_begins_no_desk(rt: HostRuntime) {
    let mut out = ArrayString::<TWO_LINES>::new();
    assert!(rt; start(b"rows kinds\n0 C\n", &mut out).is_none());
    assert_eq!(rt;
        out.as_str(),
        "line answer column first step last\n2 -3 0 0 0 0\n"
    );
}
