use command_words::{UsageFault, read_words};
use std::alloc::{AllocError, Global};
use std::process::Abort;
use tests_command_text::shown;

/// Words, separated by single spaces, and what they are read as.
type Row = (&'static str, &'static str);

/// Each command is read.
#[rattlefmt::skip]
const COMMANDS: &[Row] = &[
    ("repquota q", "report User None - --- q"),
    ("repquota -g -v -n -p -F vfsv1 --names n q", "report Group Some(V2R1) n vnp q"),
    ("setquota a 1 2 3 4 q", "limits User None - a 1 2 3 4 q"),
    ("setquota -g -F vfsold --names n a 1 2 3 4 q", "limits Group Some(V1) n a 1 2 3 4 q"),
    ("setquota -p b a q", "copy User None - b a q"),
    ("setquota -b q", "batch User None - - q"),
    ("setquota -b --input l q", "batch User None - l q"),
    ("setquota -t 1 2 q", "grace User None - 1 2 q"),
    ("setquota -T a 1 unset q", "times User None - a 1 unset q"),
    ("edquota --print a q", "print User None - a q"),
    ("edquota --apply --input l a q", "apply User None - l a q"),
    ("edquota --apply a q", "apply User None - - a q"),
    ("quotacheck q", "check User None - - None - q"),
    ("quotacheck -u -c --device 7 --input l -F vfsv0 q", "check User Some(V2R0) - c Some(7) l q"),
    ("convertquota -f vfsold,vfsv1 a b", "convert User V1 V2R1 a b"),
    ("convertquota -g -f vfsv0,vfsold a b", "convert Group V2R0 V1 a b"),
    ("repquota -F vfsold32 q", "report User Some(V1R32) - --- q"),
    ("setquota -F vfsold32 -b q", "batch User Some(V1R32) - - q"),
    ("quotacheck -c -g -F vfsold32 q", "check Group Some(V1R32) - c None - q"),
    ("convertquota -f vfsold,vfsold32 a b", "convert User V1 V1R32 a b"),
    ("convertquota -g -f vfsold32,vfsv1 a b", "convert Group V1R32 V2R1 a b"),
    ("repquota -P -v -n -p -F vfsv1 --names n q", "report Project Some(V2R1) n vnp q"),
    ("setquota -P --names n a 1 2 3 4 q", "limits Project None n a 1 2 3 4 q"),
    ("setquota -P -p b a q", "copy Project None - b a q"),
    ("setquota -P -b q", "batch Project None - - q"),
    ("setquota -P -t 1 2 q", "grace Project None - 1 2 q"),
    ("setquota -P -T a 1 unset q", "times Project None - a 1 unset q"),
    ("edquota -P --print a q", "print Project None - a q"),
    ("edquota -P --apply --input l a q", "apply Project None - l a q"),
    ("quotacheck -P -c --device 7 --input l -F vfsv0 q", "check Project Some(V2R0) - c Some(7) l q"),
    ("convertquota -P -f vfsv0,vfsv1 a b", "convert Project V2R0 V2R1 a b"),
    ("rquotad --calls 1 --port 0 --export /home user q", "serve None 1 0 /home User q"),
    (
        "rquotad --format vfsv1 --calls 1 --port 0 --export /home project p --export /home group g --export /home user q",
        "serve Some(V2R1) 1 0 /home Project p /home Group g /home User q",
    ),
    (
        "rquotad --format vfsv0 --export /a user q --export /a group r --port 65535 --calls 4294967295",
        "serve Some(V2R0) 4294967295 65535 /a User q /a Group r",
    ),
    (
        "rquotad --format vfsold32 --calls 1 --port 0 --export /home user q --export /home group g",
        "serve Some(V1R32) 1 0 /home User q /home Group g",
    ),
    ("script", "script"),
    ("generate 0 1 q", "generate 0 1 q"),
    ("generate 18446744073709551615 1000000 q", "generate 18446744073709551615 1000000 q"),
];

/// Words fall into options and operands.
#[rattlefmt::skip]
const SPLIT: &[Row] = &[
    ("repquota -uvnp q", "report User None - vnp q"),
    ("repquota -nPv q", "report Project None - vn- q"),
    ("repquota -P -P q", "report Project None - --- q"),
    ("repquota q -PFvfsv0", "report Project Some(V2R0) - --- q"),
    ("repquota -vFvfsv0 q", "report User Some(V2R0) - v-- q"),
    ("repquota -Fvfsv0 q", "report User Some(V2R0) - --- q"),
    ("repquota -vF vfsv0 q", "report User Some(V2R0) - v-- q"),
    ("repquota q -v", "report User None - v-- q"),
    ("repquota -v -vv q", "report User None - v-- q"),
    ("repquota --names=n q", "report User None n --- q"),
    ("repquota --names -n q", "report User None -n --- q"),
    ("repquota --names=n=m q", "report User None n=m --- q"),
    ("repquota -- -v", "report User None - --- -v"),
    ("repquota -- --", "report User None - --- --"),
    ("repquota -", "report User None - --- -"),
    ("setquota -p -g a q", "copy User None - -g a q"),
    ("setquota -p-g a q", "copy User None - -g a q"),
    ("setquota -bg --input=l q", "batch Group None - l q"),
    ("setquota -Pb --input=l q", "batch Project None - l q"),
    ("setquota -p-P a q", "copy User None - -P a q"),
    ("setquota -PpP a q", "copy Project None - P a q"),
    ("setquota -- -1 2 3 4 5 q", "limits User None - -1 2 3 4 5 q"),
    ("setquota 1 - 3 4 5 q", "limits User None - 1 - 3 4 5 q"),
    ("rquotad --calls=1 --port=9 --export -a user q", "serve None 1 9 -a User q"),
    ("rquotad --export -- user q --calls 1 --port 9", "serve None 1 9 -- User q"),
    ("convertquota a -fvfsold,vfsold b", "convert User V1 V1 a b"),
    ("convertquota a -fvfsold32,vfsold32 b", "convert User V1R32 V1R32 a b"),
    ("repquota -vFvfsold32 q", "report User Some(V1R32) - v-- q"),
    ("quotacheck --device 00000000000000000018 q", "check User None - - Some(18) - q"),
];

/// A command in a script names its input, and is no script.
#[rattlefmt::skip]
const IN_SCRIPT: &[Row] = &[
    ("script", "UnknownCommand at 0"),
    ("script -x", "UnknownCommand at 0"),
    ("setquota -b q", "MissingOption at 3"),
    ("edquota --apply a q", "MissingOption at 4"),
    ("quotacheck -u q", "MissingOption at 3"),
    ("setquota -b --input l q", "batch User None - l q"),
    ("edquota --print a q", "print User None - a q"),
    ("repquota q", "report User None - --- q"),
    ("repquota -P q", "report Project None - --- q"),
    ("repquota -gP q", "Excludes at 3"),
    ("repquota -P -F vfsold q", "Excludes at 5"),
    ("setquota -P -F vfsold -b q", "Excludes at 6"),
    ("setquota -P -b q", "MissingOption at 4"),
    ("setquota -P -F vfsold32 -b q", "Excludes at 6"),
    ("edquota -P --apply a q", "MissingOption at 5"),
    ("quotacheck -Pc q", "MissingOption at 3"),
    ("rquotad --format vfsold --export /a project q", "Excludes at 7"),
    ("generate 0 1 q", "generate 0 1 q"),
];

/// Sixteen exports are the most.
#[rattlefmt::skip]
const EXPORTS: &[Row] = &[
    (
        "rquotad --calls 1 --port 1 --export /0 user q --export /1 user q --export /2 user q --export /3 \
        user q --export /4 user q --export /5 user q --export /6 user q --export /7 user q --export /8 user \
        q --export /9 user q --export /10 user q --export /11 user q --export /12 user q --export /13 user \
        q --export /14 user q --export /x user q",
        "serve None 1 1 /0 User q /1 User q /2 User q /3 User q /4 User q /5 User q /6 User q /7 User q /8 \
        User q /9 User q /10 User q /11 User q /12 User q /13 User q /14 User q /x User q",
    ),
    (
        "rquotad --calls 1 --port 1 --export /0 user q --export /1 user q --export /2 user q --export /3 \
        user q --export /4 user q --export /5 user q --export /6 user q --export /7 user q --export /8 user \
        q --export /9 user q --export /10 user q --export /11 user q --export /12 user q --export /13 user \
        q --export /14 user q --export /x user q --export /y user q",
        "BadValue at 69",
    ),
    (
        "rquotad --calls 1 --port 1 --export /0 user q --export /1 user q --export /2 user q --export /3 \
        user q --export /4 user q --export /5 user q --export /6 user q --export /7 user q --export /8 user \
        q --export /9 user q --export /10 user q --export /11 user q --export /12 user q --export /13 user \
        q --export /14 user q --export /x user q --export /y user q.new",
        "BadValue at 69",
    ),
    (
        "rquotad --calls 1 --port 1 --export /0 user q --export /1 user q --export /2 user q --export /3 \
        user q --export /4 user q --export /5 user q --export /6 user q --export /7 user q --export /8 user \
        q --export /9 user q --export /10 user q --export /11 user q --export /12 user q --export /13 user \
        q --export /14 user q --export /x user q --export /0 user q",
        "Repeated at 69",
    ),
    (
        "rquotad --calls 1 --port 1 --export /0 user q --export /1 user q --export /2 user q --export /3 \
        user q --export /4 user q --export /5 user q --export /6 user q --export /7 user q --export /8 user \
        q --export /9 user q --export /10 user q --export /11 user q --export /12 user q --export /13 user \
        q --export /14 user q --export /x user q --export /y user",
        "MissingValue at 69",
    ),
];

/// Unknown options and missing values are named.
#[rattlefmt::skip]
const OPTIONS: &[Row] = &[
    ("repquota -x q", "UnknownOption at 1"),
    ("repquota -vx q", "UnknownOption at 1"),
    ("repquota q -v -x", "UnknownOption at 3"),
    ("repquota -t q", "UnknownOption at 1"),
    ("repquota --print q", "UnknownOption at 1"),
    ("repquota --verbose", "UnknownOption at 1"),
    ("repquota -v=1 q", "UnknownOption at 1"),
    ("repquota -é q", "UnknownOption at 1"),
    ("repquota -ug -x q", "UnknownOption at 2"),
    ("edquota --print=1 a q", "UnknownOption at 1"),
    ("edquota --print= a q", "UnknownOption at 1"),
    ("quotacheck --names n q", "UnknownOption at 1"),
    ("setquota --apply a q", "UnknownOption at 1"),
    ("rquotad --export=/a user q", "UnknownOption at 1"),
    ("script -v", "UnknownOption at 1"),
    ("repquota --project q", "UnknownOption at 1"),
    ("repquota -P=1 q", "UnknownOption at 1"),
    ("rquotad -P", "UnknownOption at 1"),
    ("generate -P 0 1 q", "UnknownOption at 1"),
    ("repquota -gP -x q", "UnknownOption at 2"),
    ("repquota --names", "MissingValue at 1"),
    ("repquota -vF", "MissingValue at 1"),
    ("repquota -F vfsv0 -F", "MissingValue at 3"),
    ("rquotad --export /a user", "MissingValue at 1"),
    ("rquotad --export /a user q --export /a group", "MissingValue at 5"),
];

/// Repeated options and bad values are named.
#[rattlefmt::skip]
const VALUES: &[Row] = &[
    ("repquota -F vfsv0 -F vfsv0 q", "Repeated at 3"),
    ("repquota -F vfsv0 -F x q", "Repeated at 3"),
    ("rquotad --export /a user q --export /a user r.new", "Repeated at 5"),
    ("repquota -F vfsv2 q", "BadValue at 1"),
    ("repquota -F -- q", "BadValue at 1"),
    ("repquota -F x --names= -x q", "BadValue at 1"),
    ("rquotad --calls 0 --port 1", "BadValue at 1"),
    ("rquotad --calls 4294967296", "BadValue at 1"),
    ("rquotad --calls 1 --port 65536", "BadValue at 3"),
    ("rquotad --export /a project q --export /a project r.new", "Repeated at 5"),
    ("rquotad --export /a project q --export /a group r --export /a project r", "Repeated at 9"),
    ("rquotad --export /a users q.new", "BadValue at 1"),
    ("rquotad --export /a projects q", "BadValue at 1"),
    ("rquotad --export /a Project q", "BadValue at 1"),
    ("repquota -FPvfsv0 q", "BadValue at 1"),
    ("rquotad --export  user q", "BadValue at 1"),
    ("quotacheck --device 18446744073709551616 q", "BadValue at 1"),
    ("quotacheck --device 000000000000000000001 q", "BadValue at 1"),
    ("quotacheck --device= q", "BadValue at 1"),
    ("convertquota -f vfsold a b", "BadValue at 1"),
    ("convertquota -f vfsold,vfsv0,vfsv1 a b", "BadValue at 1"),
    ("repquota -F vfsold3 q", "BadValue at 1"),
    ("repquota -F vfsold320 q", "BadValue at 1"),
    ("repquota -F vfsold64 q", "BadValue at 1"),
    ("repquota -F VFSOLD32 q", "BadValue at 1"),
    ("convertquota -f vfsold32 a b", "BadValue at 1"),
    ("rquotad --format vfsold33 --calls 1", "BadValue at 1"),
    ("repquota --names=q.new q", "BadFileName at 1"),
    ("repquota --names= q", "BadFileName at 1"),
    ("rquotad --export /a user q.und", "BadFileName at 1"),
];

/// Options that exclude each other or are missing are told at the number of words.
#[rattlefmt::skip]
const TOGETHER: &[Row] = &[
    ("repquota -u -g q", "Excludes at 4"),
    ("repquota -u -g", "Excludes at 3"),
    ("repquota -uP q", "Excludes at 3"),
    ("repquota -gP q", "Excludes at 3"),
    ("repquota -ugP q", "Excludes at 3"),
    ("repquota -P q -g", "Excludes at 4"),
    ("setquota -u -P a 1 2 3 4 q", "Excludes at 9"),
    ("setquota -P -g a 1 2 3 4 q", "Excludes at 9"),
    ("edquota -uP --print a q", "Excludes at 5"),
    ("edquota -Pg --print a q", "Excludes at 5"),
    ("quotacheck -P -u -c q", "Excludes at 5"),
    ("quotacheck -gP q", "Excludes at 3"),
    ("convertquota -uP -f vfsv0,vfsv1 a b", "Excludes at 6"),
    ("convertquota -g -P -f vfsv0,vfsv1 a b", "Excludes at 7"),
    ("convertquota -uP a b", "Excludes at 4"),
    ("setquota -b -t q", "Excludes at 4"),
    ("setquota -p x -T a q", "Excludes at 6"),
    ("setquota --input l a 1 2 3 4 q", "Excludes at 9"),
    ("setquota --input l -t 1 2 q", "Excludes at 7"),
    ("edquota --print --apply a q", "Excludes at 5"),
    ("edquota --print --input l a q", "Excludes at 6"),
    ("setquota -P -b -t q", "Excludes at 5"),
    ("edquota -P --print --apply a q", "Excludes at 6"),
    ("setquota -P --input l a 1 2 3 4 q", "Excludes at 10"),
    ("edquota --input l a q", "MissingOption at 5"),
    ("edquota a q", "MissingOption at 3"),
    ("edquota -P a q", "MissingOption at 4"),
    ("convertquota a b", "MissingOption at 3"),
    ("convertquota -P a b", "MissingOption at 4"),
    ("rquotad", "MissingOption at 1"),
    ("rquotad --calls 1 --port 1", "MissingOption at 5"),
    ("rquotad --calls 1 --export /a user q", "MissingOption at 7"),
    ("rquotad --port 1 --export /a user q x", "MissingOption at 8"),
];

/// Flat files are none of projects.
#[rattlefmt::skip]
const FLAT_PROJECTS: &[Row] = &[
    ("repquota -P -F vfsold q", "Excludes at 5"),
    ("repquota -F vfsold -P q", "Excludes at 5"),
    ("repquota -PFvfsold q", "Excludes at 3"),
    ("repquota -P -F vfsold", "Excludes at 4"),
    ("setquota -P -F vfsold a 1 2 3 4 q", "Excludes at 10"),
    ("setquota -P -F vfsold -p b a q", "Excludes at 8"),
    ("setquota -P -F vfsold -b q", "Excludes at 6"),
    ("setquota -P -F vfsold -t 1 2 q", "Excludes at 8"),
    ("setquota -P -F vfsold -T a 1 2 q", "Excludes at 9"),
    ("edquota -P -F vfsold --print a q", "Excludes at 7"),
    ("edquota -P -F vfsold --apply a q", "Excludes at 7"),
    ("edquota -P -F vfsold a q", "Excludes at 6"),
    ("quotacheck -P -c -F vfsold q", "Excludes at 6"),
    ("quotacheck -P -F vfsold q", "Excludes at 5"),
    ("convertquota -P -f vfsold,vfsv1 a b", "Excludes at 6"),
    ("convertquota -P -f vfsv0,vfsold a b", "Excludes at 6"),
    ("convertquota -f vfsold,vfsold -P a b", "Excludes at 6"),
    ("convertquota -P -f vfsv0,vfsv0 a b", "convert Project V2R0 V2R0 a b"),
    ("rquotad --format vfsold --calls 1 --port 0 --export /h project q", "Excludes at 11"),
    ("rquotad --calls 1 --port 0 --export /h project q --format vfsold", "Excludes at 11"),
    ("rquotad --format vfsold --calls 1 --port 0 --export /h user q --export /h project p", "Excludes at 15"),
    ("rquotad --format vfsold --calls 1 --port 0 --export /h project p --export /h group g", "Excludes at 15"),
    ("rquotad --format vfsold --export /h project q", "Excludes at 7"),
    ("repquota -P -F vfsold32 q", "Excludes at 5"),
    ("repquota -PFvfsold32 q", "Excludes at 3"),
    ("setquota -P -F vfsold32 a 1 2 3 4 q", "Excludes at 10"),
    ("setquota -P -F vfsold32 -t 1 2 q", "Excludes at 8"),
    ("edquota -P -F vfsold32 --print a q", "Excludes at 7"),
    ("quotacheck -P -c -F vfsold32 q", "Excludes at 6"),
    ("convertquota -P -f vfsold32,vfsv1 a b", "Excludes at 6"),
    ("convertquota -P -f vfsv0,vfsold32 a b", "Excludes at 6"),
    ("rquotad --format vfsold32 --calls 1 --port 0 --export /h project q", "Excludes at 11"),
    ("rquotad --calls 1 --port 0 --export /h user q --export /h project p --format vfsold32", "Excludes at 15"),
    (
        "rquotad --format vfsold --calls 1 --port 0 --export project user q",
        "serve Some(V1) 1 0 project User q",
    ),
    (
        "rquotad --format vfsv0 --calls 1 --port 0 --export /h project q",
        "serve Some(V2R0) 1 0 /h Project q",
    ),
];

/// Operands are checked last.
#[rattlefmt::skip]
const OPERANDS: &[Row] = &[
    ("", "UnknownCommand at 0"),
    ("quota q", "UnknownCommand at 0"),
    ("repquota", "WrongOperands at 1"),
    ("repquota q q", "WrongOperands at 3"),
    ("setquota a 1 2 3 q", "WrongOperands at 6"),
    ("setquota a 1 2 3 4 5 6 q.new", "WrongOperands at 9"),
    ("script x", "WrongOperands at 2"),
    ("rquotad --calls 1 --port 1 --export /a user q x", "WrongOperands at 10"),
    ("repquota q.new", "BadFileName at 1"),
    ("repquota -v q.undo", "BadFileName at 2"),
    ("setquota a 1 x 3 4 q", "limits User None - a 1 x 3 4 q"),
    ("setquota -t x y q", "grace User None - x y q"),
    ("setquota -b --input q q", "BadFileName at 4"),
    ("convertquota -f vfsv0,vfsv1 a.und b.und", "BadFileName at 3"),
    ("convertquota -f vfsv0,vfsv1 a b.und", "BadFileName at 4"),
    ("generate x 1 q", "BadValue at 1"),
    ("generate 18446744073709551616 0 q", "BadValue at 1"),
    ("generate 0 0 q", "BadValue at 2"),
    ("generate 0 1000001 q.new", "BadValue at 2"),
    ("generate 0 1 q.new", "BadFileName at 3"),
];

/// What words are read as: a command, or a fault with the number of its word.
fn read(alloc: Global, words: &[String], in_script: bool) -> Result<String, AllocError> {
    match read_words(alloc, words, in_script) {
        Ok(command) => shown(alloc, &command),
        Err(UsageFault::Usage { kind, word }) => format!(in alloc; "{} at {word}", kind.name()),
        Err(UsageFault::Memory) => String::from_str(alloc, "not enough memory"),
    }
}

/// The words of a text, separated by single spaces.
fn words_of(alloc: Global, text: &str) -> Result<Vec<String>, AllocError> {
    let mut words = Vec::new(alloc);
    for word in text.split(' ') {
        words.push(String::from_str(alloc, word)?)?;
    }
    Ok(words)
}

/// What the words of a text are read as.
fn read_text(alloc: Global, text: &str, in_script: bool) -> Result<String, AllocError> {
    let words = words_of(alloc, text)?;
    read(alloc, &words, in_script)
}

/// Fails where the words of a row are read as something else.
fn expect(rt: &impl Abort, alloc: Global, rows: &[Row], in_script: bool) {
    for (text, want) in rows {
        let is = read_text(alloc, text, in_script);
        let is_so = matches!(&is, Ok(is) if is.as_str() == *want);
        assert!(rt; is_so, "{text}: {is:?}");
    }
}

#[test]
fn each_command_is_read(rt: HostRuntime) {
    expect(&rt, rt.alloc(), COMMANDS, false);
}

#[test]
fn words_fall_into_options_and_operands(rt: HostRuntime) {
    expect(&rt, rt.alloc(), SPLIT, false);
    expect(&rt, rt.alloc(), EXPORTS, false);
}

#[test]
fn a_command_in_a_script_names_its_input(rt: HostRuntime) {
    expect(&rt, rt.alloc(), IN_SCRIPT, true);
}

#[test]
fn the_first_fault_of_words_is_named(rt: HostRuntime) {
    expect(&rt, rt.alloc(), OPTIONS, false);
    expect(&rt, rt.alloc(), VALUES, false);
    expect(&rt, rt.alloc(), TOGETHER, false);
    expect(&rt, rt.alloc(), FLAT_PROJECTS, false);
    expect(&rt, rt.alloc(), OPERANDS, false);
}

#[test]
fn no_words_are_no_command(rt: HostRuntime) {
    let is = read(rt.alloc(), &[], false);
    let is_so = matches!(&is, Ok(is) if is.as_str() == "NoCommand at 0");
    assert!(&rt; is_so, "{is:?}");
}
