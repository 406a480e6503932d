//! Stories: rows of commands as text, and the player that carries them out over objects in memory. It is only for
//! tests: what a story says of a program is expected, and not proved.
//!
//! A story is a text of lines. A row begins with a line `= TITLE`, and lasts up to the next one. In a row a line of the
//! first table gathers bytes, one of the second makes them a file or an input, or says what the next run meets, one of
//! the third runs words, and one of the fourth says what the run before it left. What a run wrote that no line tells,
//! a status but 0 that no line tells, and a file that it made, changed or took away and that no line names, fail the
//! row. So does a word or a number that is misspelt, what was gathered or set and is of no use, and an input that is
//! not taken to its end by a run that ends with status 0 or has an output. Of files it looks at those that were there
//! before and at those that a word of the run names, or of the lines of a script, and at each with `.new` added; no
//! line may name another one.
//!
//! | Gathers | |
//! |---|---|
//! | `text WORDS` | the rest of the line and a newline |
//! | `raw WORDS` | the rest of the line |
//! | `hex 0a ff 0102` | these bytes |
//! | `fill BYTE N` | N bytes of this number |
//! | `record FIELD N ..` | a record of a flat file: of `bhard`, `bsoft`, `blocks`, `ihard`, `isoft`, `inodes`, `btime`, `itime` those that are named, and 0 in all others |
//! | `put AT A B ..` | numbers of four bytes, the lowest byte first, over the bytes gathered so far from a place on, or behind them at `end` |
//! | `use NAME [N]` | what was kept under a name, or else what the file of this name has now, once or N times |
//! | `keep NAME` | keeps what was gathered, for all rows of the story, and gathers anew |
//!
//! | Sets | |
//! |---|---|
//! | `file NAME [KEPT]` | a file of the gathered bytes. Here and where else `[KEPT]` stands, it may be a `NAME [N]` as of `use`, which is gathered first |
//! | `input [KEPT]` | the gathered bytes are the standard input of the next run; with no such line a run must not read it |
//! | `datagram MOMENT`, `datagram MOMENT cut` | they come as a datagram to the link of the next run, or as one for each length from 0 to their own; with no such line it must not be called |
//! | `now MOMENT` | the moment of the runs from here on; 1,700,000,000 at first |
//! | `fails OBJECT N ..` | the calls of `store`, `input`, `output`, `error` or `link` that fail in the next run; of `bytes`, after how many reads its store gives bytes of 255 |
//! | `may FILE NAME` | a sweep leaves the file with the bytes that were kept under the name for some calls, behind which no call leaves it as it was; so do stops at some calls; damages may leave it so |
//! | `stays FILE ..` | each run of a sweep, or of stops, but the whole one must leave these files as they were |
//!
//! | Runs | |
//! |---|---|
//! | `run WORDS` | the words, separated by single spaces; with no fault of the store set once more over the same files on a disk, through a journal, which must say and leave the same, but for files whose names end in `.undo` or `.und` |
//! | `both WORDS` | once with the standard input, and once over the same files with a file `l` of the same bytes and `--input l` behind the words, each as by `run`; both must leave the same |
//! | `sweep OBJECT WORDS` | once with no fault, and then once for each call of the object that this run made, which fails: each must end with status 4 and the line of the object's fault, in a script with the number of a line, with an output and answers of the link that are a first part of the whole ones, and with each file as it was or as the whole run left it, or, of a tree file, with each block so. Where the error output fails under the line of a refusal, it has a first part of that line, and all else is as the whole run left it |
//! | `sweep each WORDS` | the same with each object of which the run makes calls, one after the other |
//! | `turn WORDS` | once whole, and then once for each number of reads below that of the whole run, after which the store turns: each must say what the whole run said, or end with status 3, no output and a line on the file `q`, with each file as it was or as a line allows |
//! | `stop WORDS \| WORDS` | the first words as by `run`, and then once for each call of the disk that the run over it made, from which on the disk is stopped: each must end with status 4 and the line of the store's fault, with outputs that are a first part of the whole ones. What the stop left, where an earlier one did not leave the same, is read by the second words over a disk that goes on: they must end with status 0, and each file must then be as it was, as the whole run left it, or as a line allows, but for files whose names end so. Where the gate of an undo file was open, the second words are stopped too, at each of their calls in turn, and run again, which must leave the same. A stop behind the last call must leave what the whole run left |
//!
//! | Says what the last run left | |
//! |---|---|
//! | `status N` | its status |
//! | `> TEXT` | the next line of its output |
//! | `head KIND FILE BLOCK INODE` | the next four lines of its output: the head of a report with these periods |
//! | `! TEXT` | the next line of its error output |
//! | `same FILE ..`, `changes FILE ..`, `absent FILE ..` | these files are as before the run; are others; are not there |
//! | `holds FILE [KEPT]` | the file has the gathered bytes |
//! | `at FILE PLACE A B ..` | these numbers of four bytes stand in it from the place on, and where the word `end` stands it ends |
//! | `writes N` | how many calls of `write` of the store there were |
//! | `calls TEXT` | all calls of the store |
//! | `sent`, `sent N` | the gathered bytes were the next answer of the link; each of the next N ones |
#![tactic(auto)]

mod files;
mod play;

pub use files::FILES;
pub use play::failure_of;
