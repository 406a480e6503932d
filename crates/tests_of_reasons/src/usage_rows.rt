use crate::rows::{Row, expect_rows};
use command_reasons::Program;

/// Words that begin with no command.
#[rattlefmt::skip]
const NO_COMMAND: &[Row] = &[
    ("usage: NoCommand at word 0",
        "", "", "no command; one of repquota, setquota, edquota, quotacheck, convertquota, rquotad, script or generate is wanted; quota_cli --help"),
    ("usage: UnknownCommand at word 0",
        "quota q", "", "quota: no command; one of repquota, setquota, edquota, quotacheck, convertquota, rquotad, script or generate is wanted; quota_cli --help"),
    ("line 2: usage: UnknownCommand at word 0",
        "script", "# first\nscript\n", "script: no command of a script; one of repquota, setquota, edquota, quotacheck, convertquota, rquotad, script or generate is wanted; quota_cli --help"),
];

/// Options that there are not, without their values, or with others.
#[rattlefmt::skip]
const OPTIONS: &[Row] = &[
    ("usage: UnknownOption at word 1",
        "repquota -x q", "", "-x: the options of repquota are -u, -g, -P, -v, -n, -p, -F FORMAT and --names FILE; quota_cli repquota --help"),
    ("usage: UnknownOption at word 2",
        "setquota -u --force 1 2 3 4 5 q", "", "--force: the options of setquota are -u, -g, -P, -F FORMAT, --names FILE, -p PROTO, -t, -T, -b and --input FILE; quota_cli setquota --help"),
    ("usage: UnknownOption at word 1",
        "repquota -avug", "",
        "-avug: no option -a; the options of repquota are -u, -g, -P, -v, -n, -p, -F FORMAT and --names FILE; \
         quota_cli repquota --help"),
    ("usage: UnknownOption at word 2",
        "quotacheck q -ugmF", "",
        "-ugmF: no option -m; the options of quotacheck are -u, -g, -P, -c, -F FORMAT, --device NUMBER and --input \
         FILE; quota_cli quotacheck --help"),
    ("usage: UnknownOption at word 1",
        "convertquota -u\u{e9} a b", "",
        "-u\\xc3\\xa9: the options of convertquota are -u, -g, -P and -f OLD,NEW; quota_cli convertquota --help"),
    ("usage: UnknownOption at word 1",
        "generate -u 1 2 q", "", "-u: the options of generate are none; quota_cli generate --help"),
    ("usage: MissingValue at word 2", "repquota q -F", "", "-F: FORMAT is wanted behind it; quota_cli repquota --help"),
    ("usage: MissingValue at word 1",
        "quotacheck --device", "", "--device: NUMBER is wanted behind it; quota_cli quotacheck --help"),
    ("usage: MissingValue at word 5",
        "rquotad --calls 1 --port 0 --export /home", "", "--export: PATH KIND FILE is wanted behind it; quota_cli rquotad --help"),
    ("usage: BadValue at word 1",
        "repquota -F ext4 q", "", "-F: ext4: a format is one of vfsold, vfsold32, vfsv0 or vfsv1; quota_cli repquota --help"),
    ("usage: BadValue at word 1",
        "repquota -vFext4 q", "", "-vFext4: a format is one of vfsold, vfsold32, vfsv0 or vfsv1; quota_cli repquota --help"),
    ("usage: BadValue at word 1",
        "quotacheck --device=x q", "", "--device=x: the number of a device is below 2^64; quota_cli quotacheck --help"),
    ("usage: BadValue at word 1",
        "convertquota -f vfsv0 a b", "", "-f: vfsv0: two formats are wanted with a comma between them, each of vfsold, vfsold32, vfsv0 or vfsv1; quota_cli convertquota --help"),
    ("usage: BadValue at word 1",
        "rquotad --port 65536 --calls 1", "", "--port: 65536: a port is a number from 0 to 65535; quota_cli rquotad --help"),
    ("usage: BadValue at word 1",
        "rquotad --calls 0 --port 1", "", "--calls: 0: a number from 1 to 4294967295 is wanted; quota_cli rquotad --help"),
    ("usage: BadValue at word 1",
        "rquotad --export /home users q", "", "--export: users: KIND is user, group or project; quota_cli rquotad --help"),
    ("usage: BadValue at word 1", "generate x 1 q", "", "x: SEED is a number below 2^64; quota_cli generate --help"),
    ("usage: BadValue at word 2",
        "generate 1 0 q", "", "0: COUNT is a number from 1 to 1000000; quota_cli generate --help"),
    ("usage: Repeated at word 3",
        "repquota -F vfsv0 -F vfsv1 q", "", "-F: stands a second time; quota_cli repquota --help"),
    ("usage: BadFileName at word 1",
        "repquota q.undo", "", "q.undo: the name of a file has 1 to 250 bytes from ! to ~, no blank and no letter outside of ASCII, and does not end in .new, .undo or .und; go into the folder first; quota_cli repquota --help"),
    ("usage: BadFileName at word 1",
        "repquota --names n.new q", "", "n.new: the name of a file has 1 to 250 bytes from ! to ~, no blank and no letter outside of ASCII, and does not end in .new, .undo or .und; go into the folder first; quota_cli repquota --help"),
    ("usage: BadFileName at word 4",
        "setquota -b --input q q", "", "q: FILE is the file of --input, too; quota_cli setquota --help"),
];

/// Options that exclude each other, or are missing, and other numbers of operands.
#[rattlefmt::skip]
const WHOLE: &[Row] = &[
    ("usage: Excludes at word 3",
        "repquota -ug q", "", "-ug: one of -u, -g and -P is wanted; quota_cli repquota --help"),
    ("usage: Excludes at word 6",
        "repquota -u -F vfsv0 -vP q", "", "-u -vP: one of -u, -g and -P is wanted; quota_cli repquota --help"),
    ("usage: Excludes at word 5",
        "repquota -P -F vfsold q", "", "projects have neither vfsold nor vfsold32; quota_cli repquota --help"),
    ("usage: Excludes at word 4",
        "setquota -b -t q", "", "one of -p PROTO, -t, -T and -b is wanted; quota_cli setquota --help"),
    ("usage: Excludes at word 9",
        "setquota --input l 1 2 3 4 5 q", "", "--input is read with -b alone; quota_cli setquota --help"),
    ("usage: Excludes at word 5",
        "edquota --print --apply a q", "", "one of --print and --apply is wanted; quota_cli edquota --help"),
    ("usage: Excludes at word 6",
        "edquota --print --input l a q", "", "--input is read with --apply alone; quota_cli edquota --help"),
    ("usage: MissingOption at word 3",
        "convertquota a b", "", "no -f OLD,NEW, each of vfsold, vfsold32, vfsv0 or vfsv1; quota_cli convertquota --help"),
    ("usage: MissingOption at word 3", "edquota a q", "", "no --print or --apply; quota_cli edquota --help"),
    ("usage: MissingOption at word 3", "rquotad --port 1", "", "no --calls NUMBER; quota_cli rquotad --help"),
    ("usage: MissingOption at word 3", "rquotad --calls 1", "", "no --port NUMBER; quota_cli rquotad --help"),
    ("usage: MissingOption at word 5",
        "rquotad --calls 1 --port 1", "", "no --export PATH KIND FILE; quota_cli rquotad --help"),
    ("line 1: usage: MissingOption at word 2",
        "script", "quotacheck q\n", "no --input FILE: the standard input is that of the script; quota_cli quotacheck --help"),
    ("usage: WrongOperands at word 1", "repquota", "", "no operand, and 1 is wanted: FILE; quota_cli repquota --help"),
    ("usage: WrongOperands at word 3",
        "repquota a b", "", "2 operands, and 1 is wanted: FILE; quota_cli repquota --help"),
    ("usage: WrongOperands at word 3",
        "setquota alice q", "", "2 operands, and 6 are wanted: NAME BSOFT BHARD ISOFT IHARD FILE; quota_cli setquota --help"),
    ("usage: WrongOperands at word 9",
        "setquota 1 2 3 4 5 6 7 8", "", "more than 6 operands, and 6 are wanted: NAME BSOFT BHARD ISOFT IHARD FILE; quota_cli setquota --help"),
    ("usage: WrongOperands at word 3",
        "setquota -t q", "", "1 operand, and 3 are wanted: BGRACE IGRACE FILE; quota_cli setquota --help"),
    ("usage: WrongOperands at word 3",
        "setquota -T q", "", "1 operand, and 4 are wanted: NAME BTIME ITIME FILE; quota_cli setquota --help"),
    ("usage: WrongOperands at word 3",
        "setquota -p b q", "", "1 operand, and 2 are wanted: NAME FILE; quota_cli setquota --help"),
    ("usage: WrongOperands at word 2", "script q", "", "1 operand, and none is wanted; quota_cli script --help"),
];

/// Words of the server over TCP.
#[rattlefmt::skip]
const OF_SERVER: &[Row] = &[
    ("usage: WrongOperands at word 1",
        "8750", "", "PORT CONNECTIONS FORMAT, and 1 to 16 times PATH KIND FILE, are wanted; rquotad_tcp --help"),
    ("usage: BadValue at word 0",
        "x 1 any /home user q", "", "x: PORT is a number from 0 to 65535; PORT CONNECTIONS FORMAT, and 1 to 16 times PATH KIND FILE, are wanted; rquotad_tcp --help"),
    ("usage: BadValue at word 2",
        "0 1 ext4 /home user q", "", "ext4: FORMAT is vfsold, vfsold32, vfsv0, vfsv1 or any; PORT CONNECTIONS FORMAT, and 1 to 16 times PATH KIND FILE, are wanted; rquotad_tcp --help"),
    ("q: no such file",
        "0 1 any /home user q", "",
        "q: look at the name, and whether its file system is mounted; quota_cli quotacheck -c makes a new quota file \
         of a listing"),
    ("q: other format", "0 1 vfsv1 /home user q", "", "q: its format is vfsv0; give that one as FORMAT, or any"),
    ("q: not a quota file",
        "0 1 any /home user q", "",
        "q: it does not begin as a tree file does; of flat files FORMAT is vfsold or vfsold32"),
    ("q: wrong kind", "0 1 any /home user q", "", "q: its header has another kind; KIND is user, group or project"),
];

/// Words of the client.
#[rattlefmt::skip]
const OF_CLIENT: &[Row] = &[
    ("usage: BadValue at word 0",
        "ask 875 1 2 /home", "", "ask: MODE is quota or warn; MODE PORT UID GID, and 1 to 16 paths, are wanted; quota_client --help"),
    ("usage: WrongOperands at word 0", "", "", "MODE PORT UID GID, and 1 to 16 paths, are wanted; quota_client --help"),
    ("link fault", "quota 875 1 2 /home", "", ""),
];

#[test]
fn each_usage_error_has_its_reason(rt: HostRuntime) {
    expect_rows(&rt, rt.alloc(), NO_COMMAND, None);
    expect_rows(&rt, rt.alloc(), OPTIONS, None);
    expect_rows(&rt, rt.alloc(), WHOLE, None);
}

#[test]
fn programs_without_commands_have_reasons_too(rt: HostRuntime) {
    expect_rows(&rt, rt.alloc(), OF_SERVER, Some(Program::Server));
    expect_rows(&rt, rt.alloc(), OF_CLIENT, Some(Program::Client));
}
