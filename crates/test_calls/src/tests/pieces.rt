//! Texts by hand, and the pieces into which they are cut.
use fb_pieces::{Cuts, Piece, cut_array, cut_object, leading_blanks};
use std::alloc::{AllocError, Global};
use std::test::Fail;

/// What is shown of a text that is cut: the runs of an array, the members of an object, or how many elements the runs
/// seem to have, a byte each. `|` is after each piece but the last, `.` after the last, and `?` is where a text isn't
/// cut.
#[derive(Clone, Copy)]
enum ShownCuts {
    Runs,
    Members,
    Counts,
}

// Arrays, cut after each element.
const ELEMENTS: &[(&str, &[u8])] = &[
    ("[1]", b"1."),
    ("[1,2,3]", b"1|2|3."),
    ("[ 1 , 2\n]", b" 1 | 2\n."),
    ("[]", b"?"),
    ("[ ]", b"?"),
    ("[1,]", b"1|."),
    ("[,]", b"|."),
    ("[[1,2],[[],[3]]]", b"[1,2]|[[],[3]]."),
    ("[{\"a\":[1],\"b\":{}},{}]", b"{\"a\":[1],\"b\":{}}|{}."),
    ("[\"]\",\",\",\"[{\"]", b"\"]\"|\",\"|\"[{\"."),
    ("[\"\\\"],\",1]", b"\"\\\"],\"|1."),
    ("[\"\\\\\",\"]\"]", b"\"\\\\\"|\"]\"."),
    ("[\"\\\\\\\",\",2]", b"\"\\\\\\\",\"|2."),
    ("[1,2", b"?"),
    ("[1,\"2]", b"?"),
    ("[1,[2]", b"?"),
    ("[1}", b"?"),
    ("[1] ,2]", b"?"),
    ("{\"a\":1}", b"?"),
    ("1]", b"?"),
    ("[", b"?"),
    ("", b"?"),
];

// Arrays of which a run has at most five bytes, or ten where no element has brackets. What has no more than five bytes
// isn't cut.
const RUNS: &[(&str, &[u8])] = &[
    ("[123]", b"?"),
    ("[1234]", b"1234."),
    ("[1,2,3,4]", b"1,2,3,4."),
    ("[1,2,3,4,55]", b"1,2,3,4,55."),
    ("[1,2,3,4,555]", b"1,2,3,4|555."),
    ("[ 1 ,22]\r\n\t ", b" 1 ,22."),
    ("[ 1 ,2222222]\r\n\t ", b" 1 |2222222."),
    ("[1,22,333]", b"1,22,333."),
    ("[1,22,333,4444]", b"1,22,333|4444."),
    ("[123,4]", b"123,4."),
    ("[1234,5]", b"1234,5."),
    ("[123456789,0]", b"123456789|0."),
    ("[1,2,3,4,5,6]", b"1,2,3,4,5|6."),
    ("[{},2,3]", b"{},2|3."),
    ("[1,{},3,4]", b"1,{}|3,4."),
    ("[1,2,[3,4,5]]", b"1,2|[3,4,5]."),
    ("[1,2,[3,4,5],6]", b"1,2|[3,4,5]|6."),
    ("[[1,2,3],[],[4],5]", b"[1,2,3]|[]|[4],5."),
    ("[[1,2,3,4],[5],[6],7]", b"[1,2,3,4]|[5]|[6],7."),
    ("[\"],\",\"[\"]", b"\"],\",\"[\"."),
    ("[\"],,,,\",\"[\"]", b"\"],,,,\"|\"[\"."),
    ("[1,2,3] 4", b"?"),
    ("[1,2,3]]", b"?"),
    ("[1,2,3],", b"?"),
    ("[12345,6", b"?"),
];

// How many elements their runs seem to have.
const RUN_COUNTS: &[(&str, &[u8])] = &[
    ("[1234]", &[1]),
    ("[1,2,3,4]", &[4]),
    ("[1,2,3,4,55]", &[5]),
    ("[1,2,3,4,555]", &[4, 1]),
    ("[ 1 ,22]\r\n\t ", &[2]),
    ("[ 1 ,2222222]\r\n\t ", &[1, 1]),
    ("[1,22,333]", &[3]),
    ("[1,22,333,4444]", &[3, 1]),
    ("[123,4]", &[2]),
    ("[1234,5]", &[2]),
    ("[123456789,0]", &[1, 1]),
    ("[1,2,3,4,5,6]", &[5, 1]),
    ("[{},2,3]", &[2, 1]),
    ("[1,{},3,4]", &[2, 2]),
    ("[1,2,[3,4,5]]", &[2, 1]),
    ("[1,2,[3,4,5],6]", &[2, 1, 1]),
    ("[[1,2,3],[],[4],5]", &[1, 1, 2]),
    ("[[1,2,3,4],[5],[6],7]", &[1, 1, 2]),
    ("[\"],\",\"[\"]", &[2]),
    ("[\"],,,,\",\"[\"]", &[1, 1]),
];

// The members of objects, whatever is long.
const OBJECTS: &[(&str, &[u8])] = &[
    ("{\"a\":1}", b"\"a\"=1."),
    (
        "{ \"a\" : 1 , \"b\" : [2,3] }\r\n\t ",
        b" \"a\" = 1 | \"b\" = [2,3] .",
    ),
    (
        "{\"a\":[1,2],\"b\":{\"c\":[]}}",
        b"\"a\"=[1,2]|\"b\"={\"c\":[]}.",
    ),
    ("{\":}\":\",\\\"}\",\"\":0}", b"\":}\"=\",\\\"}\"|\"\"=0."),
    ("{\"}\":\"}\",\"\":{}}", b"\"}\"=\"}\"|\"\"={}."),
    ("{\"a\",\"b\":1}", b"\"a\",\"b\"=1."),
    ("{}", b"?"),
    ("{ }", b"?"),
    ("{\"a\":1} 2", b"?"),
    ("{\"a\":1}}", b"?"),
    ("{\"a\":1},", b"?"),
    ("{\"a\":1,}", b"?"),
    ("{\"a\":1", b"?"),
    ("{\"a\":[1,2,3]", b"?"),
    ("{\"a\":1]", b"?"),
    ("{\"a\"}", b"?"),
    ("[1]", b"?"),
    ("\"a\":1}", b"?"),
    ("{", b"?"),
    ("", b"?"),
];

// Arrays of so many of an element, and then of others, how many bytes a run has at most, or twice as many where no
// element has brackets, and how many elements the runs seem to have. Of 200 digits 50 have 99 bytes with their commas,
// and 51 have 101. Twelve strings of nine bytes have 119 with their commas. Elements of four bytes are long, and after
// one that is shorter a run has at most four.
const LONG: &[(&[(usize, &str)], usize, &[u8])] = &[
    (&[(200, "1")], 399, &[200]),
    (&[(200, "1")], 200, &[200]),
    (&[(200, "1")], 199, &[199, 1]),
    (&[(200, "1")], 50, &[50, 50, 50, 50]),
    (&[(15, "\"abcdefg\"")], 64, &[12, 1, 1, 1]),
    (
        &[(13, "\"abcdefg\""), (6, "1"), (2, "\"abcdefg\"")],
        64,
        &[12, 1, 1, 2, 5],
    ),
    (&[(15, "[\"abcdefg\"]")], 64, &[5, 5, 5]),
    (&[(65, "1")], 64, &[64, 1]),
];

const BLANKS: &[(&str, usize)] = &[
    ("", 0),
    (" ", 1),
    ("\t\r\n [", 4),
    ("[ ", 0),
    ("\u{b}", 0),
    ("\u{a0}", 0),
];

/// Adds a piece, and what follows it.
fn push_piece(
    shown: &mut Vec<u8>,
    text: &[u8],
    piece: Piece,
    behind: u8,
) -> Result<(), AllocError> {
    shown.extend_from_slice(text.get(piece.start..piece.end).unwrap_or(b"(no piece)"))?;
    shown.push(behind)?;
    Ok(())
}

/// What follows a piece.
fn mark(is_last: bool) -> u8 {
    if is_last { b'.' } else { b'|' }
}

/// What is shown of the text of an array.
fn runs_of(
    alloc: Global,
    text: &[u8],
    at: usize,
    cuts: &Cuts,
    is_counted: bool,
) -> Result<Vec<u8>, AllocError> {
    let mut shown = Vec::new(alloc);
    let Some(runs) = cut_array(alloc, text, at, cuts)? else {
        shown.push(b'?')?;
        return Ok(shown);
    };
    for run in &runs {
        if is_counted {
            shown.push(u8::try_from(run.count).unwrap_or(0))?;
        } else {
            push_piece(&mut shown, text, run.elements, mark(run.is_last))?;
        }
    }
    Ok(shown)
}

/// What is shown of the text of an object.
fn members_of(alloc: Global, text: &[u8], cuts: &Cuts) -> Result<Vec<u8>, AllocError> {
    let mut shown = Vec::new(alloc);
    let Some(members) = cut_object(alloc, text, 0, cuts)? else {
        shown.push(b'?')?;
        return Ok(shown);
    };
    for member in &members {
        push_piece(&mut shown, text, member.name, b'=')?;
        push_piece(&mut shown, text, member.value, mark(member.is_last))?;
    }
    Ok(shown)
}

/// Whether a text is cut as it should be.
fn is_cut(
    alloc: Global,
    text: &[u8],
    most: usize,
    form: ShownCuts,
    want: &[u8],
) -> Result<bool, AllocError> {
    let Some(cuts) = Cuts::of(alloc, text, most)? else {
        return Ok(want == b"?".as_slice());
    };
    let shown = match form {
        ShownCuts::Runs => runs_of(alloc, text, 0, &cuts, false)?,
        ShownCuts::Counts => runs_of(alloc, text, 0, &cuts, true)?,
        ShownCuts::Members => members_of(alloc, text, &cuts)?,
    };
    Ok(shown.as_slice() == want)
}

fn behind_blanks(alloc: Global, blanks: usize, text: &str) -> Result<Vec<u8>, AllocError> {
    let mut padded = vec![in alloc; b' '; blanks]?;
    padded.extend_from_slice(text.as_bytes())?;
    Ok(padded)
}

/// The first of some texts that isn't cut as it should be, after enough blanks that each of its bytes begins a block
/// of 64 once, and ends one.
fn wrong<'r>(
    alloc: Global,
    rows: &[(&'r str, &[u8])],
    most: usize,
    form: ShownCuts,
) -> Result<Option<&'r str>, AllocError> {
    for (text, want) in rows {
        for blanks in 0..66 {
            let padded = behind_blanks(alloc, blanks, text)?;
            if !is_cut(alloc, padded.as_slice(), most, form, want)? {
                return Ok(Some(*text));
            }
        }
    }
    Ok(None)
}

#[test]
fn arrays_are_cut_behind_each_element(rt: HostRuntime) -> Result<(), Fail> {
    assert_eq!(rt; wrong(rt.alloc(), ELEMENTS, 0, ShownCuts::Runs)?, None);
    assert_eq!(rt; wrong(rt.alloc(), RUNS, 5, ShownCuts::Runs)?, None);
    assert_eq!(rt; wrong(rt.alloc(), RUN_COUNTS, 5, ShownCuts::Counts)?, None);
    Ok(())
}

#[test]
fn objects_are_cut_behind_each_name_and_value(rt: HostRuntime) -> Result<(), Fail> {
    for most in [0, 5, 1_000] {
        assert_eq!(rt; wrong(rt.alloc(), OBJECTS, most, ShownCuts::Members)?, None);
    }
    Ok(())
}

/// An array of so many of an element, and then of others.
fn array_of(alloc: Global, elements: &[(usize, &str)]) -> Result<Vec<u8>, AllocError> {
    let mut text = Vec::new(alloc);
    for (count, element) in elements {
        for _ in 0..*count {
            text.push(if text.is_empty() { b'[' } else { b',' })?;
            text.extend_from_slice(element.as_bytes())?;
        }
    }
    text.push(b']')?;
    Ok(text)
}

#[test]
fn long_arrays_are_cut_into_runs(rt: HostRuntime) -> Result<(), Fail> {
    for (elements, most, counts) in LONG {
        let text = array_of(rt.alloc(), elements)?;
        assert!(rt;
            is_cut(
                rt.alloc(),
                text.as_slice(),
                *most,
                ShownCuts::Counts,
                counts
            )?
        );
    }
    Ok(())
}

/// An array of a digit and of so many arrays in one another.
fn nested(alloc: Global, levels: usize) -> Result<Vec<u8>, AllocError> {
    let mut text = Vec::from_slice(alloc, b"[1,")?;
    for bracket in [b'[', b']'] {
        for _ in 0..levels {
            text.push(bracket)?;
        }
    }
    text.push(b']')?;
    Ok(text)
}

#[test]
fn what_is_nested_deeper_than_json_may_be_has_no_cuts(rt: HostRuntime) -> Result<(), Fail> {
    let deepest = nested(rt.alloc(), 126)?;
    assert!(rt;
        is_cut(
            rt.alloc(),
            deepest.as_slice(),
            0,
            ShownCuts::Counts,
            &[1, 1]
        )?
    );
    let deeper = nested(rt.alloc(), 127)?;
    assert!(rt; is_cut(rt.alloc(), deeper.as_slice(), 0, ShownCuts::Counts, b"?")?);
    Ok(())
}

#[test]
fn a_text_within_another_is_cut_where_it_is(rt: HostRuntime) -> Result<(), Fail> {
    let whole = b"{\"a\":[1,2],\"b\": [\"x\",[3,4]] }";
    let shown = match Cuts::of(rt.alloc(), whole, 0)? {
        Some(cuts) => runs_of(rt.alloc(), &whole[15..28], 15, &cuts, false)?,
        None => Vec::new(rt.alloc()),
    };
    assert!(rt; shown.as_slice() == b"\"x\"|[3,4].".as_slice());
    Ok(())
}

#[test]
fn blanks_are_counted(rt: HostRuntime) {
    for (text, blanks) in BLANKS {
        assert!(rt; leading_blanks(text.as_bytes()) == *blanks, "of {text}");
    }
}
