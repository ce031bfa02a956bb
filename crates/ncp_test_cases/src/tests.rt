//! The faults found in files that are no cases, and the differences found in cases that differ.

use crate::cases::cases_in;
use crate::differences::print_differences;
use crate::playing::play;
use std::process::Abort;
use std::test::Fail;

// A file, and the reason why it cannot be read as cases.
type Faulty = (&'static str, &'static str);

const FAULTY: &[Faulty] = &[
    // Lines outside of cases.
    ("text\n", "line 1: this belongs to no case"),
    ("#text\n", "line 1: this belongs to no case"),
    (
        "case a: show\n\n> text\n",
        "line 3: this belongs to no case",
    ),
    // Lines that begin no case.
    ("case a:\n", "line 1: this belongs to no case"),
    ("case a: \n", "line 1: this belongs to no case"),
    ("case a:  show\n", "line 1: this belongs to no case"),
    ("case a b: show\n", "line 1: this belongs to no case"),
    ("case : show\n", "line 1: this belongs to no case"),
    // A second case with the same name.
    (
        "case a: show\n\n# b\ncase a: check\n",
        "line 4: this belongs to no case",
    ),
    // Lines of a case.
    ("case a: show\n>x 4\n", "line 2: this belongs to no case"),
    ("case a: show\n>x 4 E\n", "line 2: this belongs to no case"),
    ("case a: show\n<x +1\n", "line 2: this belongs to no case"),
    ("case a: show\n>= a\n", "line 2: this belongs to no case"),
    ("case a: show\n= 256\n", "line 2: this belongs to no case"),
    ("case a: show\n= +1\n", "line 2: this belongs to no case"),
    ("case a: show\n=\n", "line 2: this belongs to no case"),
    (
        "case a: show\n= 1\n= 1\n",
        "line 3: this belongs to no case",
    ),
    ("case a: show\r\n", "line 1: this belongs to no case"),
    ("case a: show\n> \t\n", "line 2: this belongs to no case"),
    // The end of the file.
    ("case a: show\n1 short", "the last line does not end"),
    ("# a", "the last line does not end"),
];

#[test]
fn what_is_no_case_is_refused(rt: HostRuntime) -> Result<(), Fail> {
    for (text, why) in FAULTY {
        match cases_in(rt.alloc(), text) {
            Ok(_) => assert!(rt; false, "{text:?}"),
            Err(error) => {
                let said = format!(in rt.alloc(); "{error}")?;
                assert!(rt; said.as_str() == *why, "{text:?}: {said}");
            }
        }
    }
    Ok(())
}

#[test]
fn cases_have_their_lines(rt: HostRuntime) -> Result<(), Fail> {
    const TEXT: &str =
        "# one\ncase a: show -\n> b\n>\n>x 00 7F80 # c\n\n\ncase b_2: audit\n# d\n>= a\n> e\nf\n  g\n<x 0A\n! h\n!   i\n= 2\n";
    let Ok(cases) = cases_in(rt.alloc(), TEXT) else {
        return Err("these are cases".into());
    };
    let [one, two] = cases.as_slice() else {
        return Err("there are two".into());
    };
    assert!(rt; one.name == "a" && one.words.as_slice() == ["ncp", "show", "-"].as_slice());
    assert!(rt; one.input.as_slice() == b"b\n\n\x00\x7f\x80".as_slice() && one.output.is_empty());
    assert!(rt; one.errors.is_empty() && one.status.is_none());
    assert!(rt; two.name == "b_2" && two.words.as_slice() == ["ncp", "audit"].as_slice());
    assert!(rt;
        two.input.as_slice() == b"b\n\n\x00\x7f\x80e\n".as_slice()
            && two.output.as_slice() == b"f\n  g\n\n".as_slice()
    );
    assert!(rt; two.errors.as_slice() == b"h\n".as_slice() && two.status == Some(2));
    Ok(())
}

// Whether playing the one case of a file finds no difference.
fn is_played_so(rt: &HostRuntime, text: &str) -> Result<bool, Fail> {
    let Ok(cases) = cases_in(rt.alloc(), text) else {
        return Err("this is a case".into());
    };
    let [case] = cases.as_slice() else {
        return Err("there is one".into());
    };
    let ended = play(rt, case)?;
    match print_differences(rt, case, &ended) {
        Ok(is_same) => Ok(is_same),
        Err(_) => Err("this can be printed".into()),
    }
}

#[test]
fn what_differs_is_found(rt: HostRuntime) -> Result<(), Fail> {
    const SAME: &[&str] = &[
        "case rfnm: show\n>x 4E435049 0020 05020000\n1 rfnm host=2 link=0\n",
        "case cut: show\n>x 4E435049 0000 0020\n1 short\n! ncp: Truncated\n!   why\n= 2\n",
    ];
    const OTHER: &[&str] = &[
        // The output: another line, one line less, one more, and one without an end.
        "case rfnm: show\n>x 4E435049 0020 05020000\n1 rfnm host=2 link=1\n",
        "case rfnm: show\n>x 4E435049 0020 05020000\n",
        "case rfnm: show\n>x 4E435049 0020 05020000\n1 rfnm host=2 link=0\n2 short\n",
        "case rfnm: show\n>x 4E435049 0020 05020000\n1 rfnm host=2 link=0\n<x 0A\n",
        // Standard error, and the status.
        "case cut: show\n>x 4E435049 0000 0020\n1 short\n! ncp: TooLong\n= 2\n",
        "case cut: show\n>x 4E435049 0000 0020\n1 short\n= 2\n",
        "case cut: show\n>x 4E435049 0000 0020\n1 short\n! ncp: Truncated\n= 1\n",
        "case cut: show\n>x 4E435049 0000 0020\n1 short\n! ncp: Truncated\n",
    ];
    for text in SAME {
        assert!(rt; is_played_so(&rt, text)?, "{text:?}");
    }
    for text in OTHER {
        assert!(rt; !is_played_so(&rt, text)?, "{text:?}");
    }
    Ok(())
}
