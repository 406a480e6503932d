//! The lines of a script.

/// Lines that say nothing, lines that are too long, and lines that are no text.
pub const LINES: &str = "\
= comments and lines without words are passed over, and a comment may be any bytes
file q six
raw #
hex ff fe 0a
text
text  \t
raw # a comment
hex 00 0d 0a
text #repquota r
text repquota q
raw #
hex ff
input
run script
head user q 7days 7days
> #1000        --          4          0          0      -        1        0        0      -

= a comment begins at the first byte of its line
text  # repquota q
input
run script
status 2
! quota: line 1: usage: UnknownCommand at word 0
file q six
text repquota q # all
input
run script
status 2
! quota: line 1: usage: WrongOperands at word 4

= a carriage return is a part of a word
hex 0d 0a
input
run script
status 2
! quota: line 1: usage: UnknownCommand at word 0

= a byte that begins no character
hex ff
input
run script
status 1
! quota: script: bad line 1

= what stands before a line that is no text has run
file q six
text setquota 7 1 2 0 0 q
raw repquota q
hex c3 0a
text setquota 8 1 2 0 0 q
input
run script
status 1
! quota: script: bad line 2
changes q
run repquota -v q
head user q 7days 7days
> #7           --          0          1          2      -        0        0        0      -
> #1000        --          4          0          0      -        1        0        0      -

= the first line that is refused is told, and no line that is no text behind it
file q six
text setquota 7 x 2 0 0 q
hex ff 0a
input
run script
status 1
! quota: line 1: bad number x
same q

= a word that is text and no ASCII is said as it is
file q six
text setquota \u{e4}rger 1 1 0 0 q
input
run script
status 1
! quota: line 1: unknown name \u{e4}rger

= a line has 4,096 bytes at most
file q six
raw repquota q
fill 32 4086
text
text repquota q
input
run script
head user q 7days 7days
> #1000        --          4          0          0      -        1        0        0      -
head user q 7days 7days
> #1000        --          4          0          0      -        1        0        0      -
file q six
text setquota 7 1 2 0 0 q
raw repquota q
fill 32 4087
text
text repquota q
input
run script
status 1
! quota: script: long line 2
changes q
run repquota -v q
head user q 7days 7days
> #7           --          0          1          2      -        0        0        0      -
> #1000        --          4          0          0      -        1        0        0      -

= a comment and a line that is no text are long lines where they are too long
raw #
fill 32 4096
text
input
run script
status 1
! quota: script: long line 1
hex ff
fill 32 4096
text
input
run script
status 1
! quota: script: long line 1

= the last line may be too long without its newline
fill 32 4097
input
run script
status 1
! quota: script: long line 1
fill 32 4096
input
run script

= all lines are counted
text #
keep note
use note 150
text
use note 150
text script
input
run script
status 2
! quota: line 302: usage: UnknownCommand at word 0

= no byte is lost where a line ends at the edge of a piece
file q six
raw #
fill 32 4078
text
text repquota q
text repquota q
input
run script
head user q 7days 7days
> #1000        --          4          0          0      -        1        0        0      -
head user q 7days 7days
> #1000        --          4          0          0      -        1        0        0      -
file q six
raw #
fill 32 4083
text
text repquota q
text repquota q
input
run script
head user q 7days 7days
> #1000        --          4          0          0      -        1        0        0      -
head user q 7days 7days
> #1000        --          4          0          0      -        1        0        0      -
file q six
raw #
fill 32 4084
text
text repquota q
text repquota q
input
run script
head user q 7days 7days
> #1000        --          4          0          0      -        1        0        0      -
head user q 7days 7days
> #1000        --          4          0          0      -        1        0        0      -

= a script takes no other words
run script q
status 2
! quota: usage: WrongOperands at word 2
run script -u
status 2
! quota: usage: UnknownOption at word 1
";
