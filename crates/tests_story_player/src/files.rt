/// What each story may use: the file of vfsv1 with six blocks, of which identifier 1000 uses 4,096 bytes and one inode
/// (`six`); the same without its last byte (`short`); with one more block, by which identifier 65534 is found in the
/// same data block, with 8,192 bytes and two inodes (`seven`); the header of an empty file of vfsv1 with periods of a
/// week (`empty`); the file of six blocks with a soft limit of blocks that identifier 1000 exceeds (`timed`).
pub const FILES: &str = "\
= files of other rows
fill 0 6143
put 0 3653246737 1 604800 604800
put 20 6
put 28 5
put 1024 2
put 2048 3
put 3084 4
put 5024 5
put 5128 1
put 5136 1000
put 5160 1
put 5184 4096
keep short
use short
fill 0 1
keep six
use six
fill 0 1024
put 20 7
put 4092 6
put 7160 5
put 5128 2
put 5208 65534
put 5232 2
put 5256 8192
keep seven
hex 111fc0d9 01000000 803a0900 803a0900 00000000 02000000 00000000 00000000
keep empty
file q six
run setquota -u 1000 2 8 0 0 q
changes q
use q
keep timed
";
