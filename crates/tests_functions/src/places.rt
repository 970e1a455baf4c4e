//! Places in the files that people have.

use crate::find::place_of_word;
use mc_places::Places;
use std::alloc::{AllocError, Global};
use std::process::Abort;
use std::test::Fail;

/// What `gcc -E modes.c` (12.2.0) writes for a file that includes `types.h`, which includes
/// `limits.h`, and `dos.h`, whose lines end with CR LF; whose macro goes over three lines and is
/// used over two; and which has two `#line`.
static MODES: &[u8] = b"# 0 \"modes.c\"\n\
# 0 \"<built-in>\"\n\
# 0 \"<command-line>\"\n\
# 1 \"/usr/include/stdc-predef.h\" 1 3 4\n\
# 0 \"<command-line>\" 2\n\
# 1 \"modes.c\"\n\
\n\
# 1 \"types.h\" 1\n\
# 1 \"limits.h\" 1\n\
\n\
\n\
extern int trips;\n\
# 2 \"types.h\" 2\n\
typedef int speed;\n\
# 3 \"modes.c\" 2\n\
# 1 \"dos.h\" 1\n\
int crlf_first;\n\
\n\
int crlf_third;\n\
# 4 \"modes.c\" 2\n\
\n\
\n\
\n\
\n\
\n\
static int mode;\n\
\n\
int mode_step(speed now)\n\
{\n\
\x20 if (((now > 0) && (now < 8))\n\
\x20                      ) {\n\
\x20   mode = 1;\n\
\x20 }\n\
# 27 \"modes.c\"\n\
\x20 return mode;\n\
}\n\
# 200 \"modes.c\"\n\
int after_line(void) { return 2; }\n\
# 7 \"other.c\"\n\
int in_other(void) { return 3; }\n";

/// A word of that text, and the place where it stands in the files, by eye.
static WORDS: [(&[u8], &[u8]); 20] = [
    (b"trips", b"limits.h:3 (12:12)"),
    (b"extern", b"limits.h:3 (12:1)"),
    (b"speed;", b"types.h:2 (14:13)"),
    (b"crlf_first", b"dos.h:1 (17:5)"),
    (b"crlf_third", b"dos.h:3 (19:5)"),
    (b"static", b"modes.c:9 (26:1)"),
    (b"mode;", b"modes.c:9 (26:12)"),
    (b"mode_step", b"modes.c:11 (28:5)"),
    (b"speed now", b"modes.c:11 (28:15)"),
    (b"if (((", b"modes.c:13 (30:3)"),
    (b"now < 8", b"modes.c:13 (30:22)"),
    (b") {\n    mode", b"modes.c:14 (31:24)"),
    (b"mode = 1", b"modes.c:15 (32:5)"),
    (b"return mode", b"modes.c:27 (35:3)"),
    (b"after_line", b"modes.c:200 (38:5)"),
    (b"return 2", b"modes.c:200 (38:24)"),
    (b"in_other", b"other.c:7 (40:5)"),
    (b"return 3", b"other.c:7 (40:22)"),
    (b"# 2 \"types.h", b"limits.h:4 (13:1)"),
    (b"# 0 \"modes.c", b"1:1"),
];

/// A text, a word of it, and the place where it stands.
struct Row<'a> {
    text: &'a [u8],
    word: &'a [u8],
    place: &'a [u8],
}

static ROWS: [Row<'static>; 23] = [
    Row {
        text: b"int x;",
        word: b"x",
        place: b"1:5",
    },
    Row {
        text: b"int x;\n# 1 \"a.c\"\nint y;",
        word: b"x",
        place: b"1:5",
    },
    Row {
        text: b"int x;\n# 1 \"a.c\"\nint y;",
        word: b"y",
        place: b"a.c:1 (3:5)",
    },
    Row {
        text: b"# 5 \"a.c\"\r\nint x;\r\nint y;\r\n",
        word: b"y",
        place: b"a.c:6 (3:5)",
    },
    Row {
        text: b"int x;\n# 7 \"a.c\"",
        word: b"x",
        place: b"1:5",
    },
    Row {
        text: b"int x;\n# 7 \"a.c\"\n",
        word: b"nowhere",
        place: b"a.c:7 (3:1)",
    },
    Row {
        text: b"# 1 \"b\\\\c.h\" 1\nint x;",
        word: b"x",
        place: b"b\\c.h:1 (2:5)",
    },
    Row {
        text: b"# 1 \"./\\303\\251t\\303\\251.h\" 1\nint x;",
        word: b"x",
        place: b"./\xc3\xa9t\xc3\xa9.h:1 (2:5)",
    },
    Row {
        text: b"# 1 \"./t\\tb.h\" 1\nint x;",
        word: b"x",
        place: b"./t\tb.h:1 (2:5)",
    },
    Row {
        text: b"# 1 \"a\\400\\q\\.h\" 1\nint x;",
        word: b"x",
        place: b"a\\400\\q\\.h:1 (2:5)",
    },
    Row {
        text: b"# 1 \"a b.h\" 1 3 4\nint x;",
        word: b"x",
        place: b"a b.h:1 (2:5)",
    },
    Row {
        text: b"# 2147483647 \"a.c\"\nint x;\nint y;",
        word: b"x",
        place: b"a.c:2147483647 (2:5)",
    },
    Row {
        text: b"# 2147483647 \"a.c\"\nint x;\nint y;",
        word: b"y",
        place: b"3:5",
    },
    Row {
        text: b"# 2147483648 \"a.c\"\nint x;",
        word: b"x",
        place: b"2:5",
    },
    Row {
        text: b"# 99999999999999999999999 \"a.c\"\nint x;\n# 4 \"a.c\"\nint y;",
        word: b"y",
        place: b"a.c:4 (4:5)",
    },
    Row {
        text: b"# 3 \"a.c\"\nint x;\n# 9\nint y;",
        word: b"y",
        place: b"a.c:9 (4:5)",
    },
    Row {
        text: b"# 9\nint y;",
        word: b"y",
        place: b"2:5",
    },
    Row {
        text: b"/*\n# 9 \"a.c\"\n*/int y;",
        word: b"y",
        place: b"3:7",
    },
    Row {
        text: b"/* */ // /*\n# 9 \"a.c\"\nint y;",
        word: b"y",
        place: b"a.c:9 (3:5)",
    },
    Row {
        text: b"  #  9  \"a.c\"  \nint y;",
        word: b"y",
        place: b"a.c:9 (2:5)",
    },
    Row {
        text: b"#9\"a.c\"2\nint y;",
        word: b"y",
        place: b"a.c:9 (2:5)",
    },
    Row {
        text: b"# 1 \"a/*b.c\"\nint y;",
        word: b"y",
        place: b"a/*b.c:1 (2:5)",
    },
    Row {
        text: b"# 1 \"a.c\"\n/* x\n */int y;\n",
        word: b"y",
        place: b"a.c:2 (3:8)",
    },
];

/// Whether the first place of the word in the text is written so.
fn is_at(
    alloc: Global,
    places: &Places<'_>,
    word: &[u8],
    place: &[u8],
) -> Result<bool, AllocError> {
    let mut line = Vec::new(alloc);
    places.push_place(alloc, &mut line, place_of_word(places.text(), word))?;
    Ok(line.as_slice() == place)
}

#[test]
fn places_of_preprocessed_files(rt: HostRuntime) -> Result<(), Fail> {
    let alloc = rt.alloc();
    assert!(rt; MODES.len() <= 2000);
    let places = Places::of(alloc, MODES)?;
    for (word, place) in &WORDS {
        assert!(rt; is_at(alloc, &places, word, place)?);
    }
    drop(places);
    Ok(())
}

fn check(rt: &impl Abort, alloc: Global, row: &Row<'_>) -> Result<(), Fail> {
    assert!(rt; row.text.len() <= 1000);
    let places = Places::of(alloc, row.text)?;
    assert!(rt; is_at(alloc, &places, row.word, row.place)?);
    drop(places);
    Ok(())
}

#[test]
fn places_of_rows(rt: HostRuntime) -> Result<(), Fail> {
    let alloc = rt.alloc();
    for row in &ROWS {
        check(&rt, alloc, row)?;
    }
    Ok(())
}

/// A name, and whether a marker of the text names that file.
static NAMES: [(&[u8], bool); 7] = [
    (b"modes.c", true),
    (b"limits.h", true),
    (b"<built-in>", true),
    (b"other.c", true),
    (b"modes", false),
    (b"modes.c ", false),
    (b"", false),
];

#[test]
fn files_that_markers_name(rt: HostRuntime) -> Result<(), Fail> {
    let alloc = rt.alloc();
    assert!(rt; MODES.len() <= 2000);
    let places = Places::of(alloc, MODES)?;
    for (name, is_named) in &NAMES {
        assert_eq!(rt; places.names(name), *is_named);
    }
    drop(places);
    Ok(())
}

/// A marker after the last line names a file, in which nothing stands.
#[test]
fn file_of_a_last_marker(rt: HostRuntime) -> Result<(), Fail> {
    let alloc = rt.alloc();
    let text = b"int x;\n# 7 \"b\\\\c.h\"".as_slice();
    let places = Places::of(alloc, text)?;
    assert!(rt; places.names(b"b\\c.h"));
    assert!(rt; !places.stands_in(b"b\\c.h", 4));
    assert!(rt; places.origin(4).is_none());
    drop(places);
    Ok(())
}
