//! The texts of the program's help, whose lines have at most 80 characters. `clap` puts 21 of them before an option's
//! text, and the default after it.

/// The version of the program.
pub const VERSION: &str = "0.2";

pub const RDS: &str =
    "Decodes and encodes Radio Data System bits, standard input to standard output";

/// Input is standard input: a file's name among the words is no input. Each usage says so, with an example, in help
/// and in usage errors.
pub const RDS_USAGE: &str = "rds <COMMAND> [OPTIONS] < INPUT > OUTPUT

Use < FILE, not FILE. Example: rds list < recording.bin > listing.csv";

pub const RDS_AFTER: &str =
    "The input is packed bits, MSB first, after differential decoding; with --hex it
is the hex digits of these bytes. A position is the number of a bit, from 0. A
row gives the position of a block's last bit, but of a group's first.

Exit status: 0 if the output is complete, or help or the version was requested
and written; 1 for an error; 2 for a usage error. After any error but 10 nothing
was written; 'follow' leaves the rows before an error. One line
'refused NUMBER NAME' goes to standard error:

   1 BurstRange     --burst is above 5
   2 ReachRange     --reach is not 1 to 8
   3 LossRange      --loss is not 1 to 64
   4 BitsPastBytes  the input has fewer bits than --bits says
   5 TooLong        the recording has more than 68719476736 bits
   6 BadCutting     --pieces is 0
   7 CrewRange      --workers is not 1 to 256
   8 OutOfMemory    the system gave no memory
   9 Read           reading failed
  10 Write          writing failed; the output is truncated
  11 HexText        hex input with an odd number of digits, or with a byte that
                    is neither a digit nor blank
  12 GroupText      a line for 'encode' that is neither empty nor 16 hex digits
  13 TooManyTurns   the input had not ended after 16777216 reads
  14 NoWorker       never: without threads a job only takes longer
  15 ShareRange     --share is 0 or above --of, or --of is above 64
  16 BadGaps        a gap is empty, out of order, or past the end";

pub const SCAN: &str = "List each position where a 26-bit window matches an offset word";

pub const SCAN_USAGE: &str = "rds scan [OPTIONS] < INPUT > OUTPUT

Use < FILE, not FILE. Example: rds scan < recording.bin > windows.csv";

pub const SCAN_AFTER: &str =
    "Writes a row 'POSITION,OFFSET' for each 26-bit window that matches an offset
word and touches no gap, by rising position. POSITION is that of its last bit,
from 0; OFFSET is A, B, C, Cx (C') or D.

'rds --help' lists the errors.";

pub const LIST: &str = "List sync acquisitions, groups and sync losses, then the totals";

pub const LIST_USAGE: &str = "rds list [OPTIONS] < INPUT > OUTPUT

Use < FILE, not FILE. Example: rds list < recording.bin > listing.csv";

pub const LIST_AFTER: &str =
    "Writes rows of eight fields in order of completion, so 'acquired' precedes its
group. A field that says nothing is '-'.

  acquired,POSITION,NUMBER
                         block sync was acquired by the block whose last bit is
                         at POSITION, read as block NUMBER, 1 to 4
  group,POSITION,TYPE,VERSION,BLOCK1,BLOCK2,BLOCK3,BLOCK4
                         a group; POSITION is its first bit that was read
  lost,POSITION          block sync was lost by the block whose last bit is at
                         POSITION
  total,NAME,VALUE       the twelve totals, as 'rds totals' writes them

TYPE is 0 to 15, or '-' if block 2 is unknown. VERSION is A, B or ?, followed by
'!' if the offset word of block 3 contradicts block 2. A block is one of

  none            sent before the block that acquired sync, after sync was lost,
                  or past the end
  lost            uncorrectable, or it touches a gap
  B:2540          valid: offset (A, B, C, Cx or D) and information word in hex
  C:0000~0008000  corrected: '~' is followed by the 26-bit error mask in hex,
                  16 information bits, then 10 check bits

'rds --help' lists the errors.";

pub const FOLLOW: &str = "List a stream as it comes, each row once it is complete";

pub const FOLLOW_USAGE: &str = "rds follow [OPTIONS] < INPUT > OUTPUT

Example: receiver | rds follow > listing.csv";

pub const FOLLOW_AFTER: &str =
    "After each read, writes the rows of 'rds list' that are complete. When the input
ends, or the bits that --bits asks for, the last group and the totals follow.
The whole output is that of 'rds list' for the same bytes. Memory does not grow
with the stream. More workers help if reads give 32 KiB or more, without --soft.

'rds --help' lists the errors.";

pub const TOTALS: &str = "Count valid, corrected and uncorrectable blocks, groups, sync losses";

pub const TOTALS_USAGE: &str = "rds totals [OPTIONS] < INPUT > OUTPUT

Use < FILE, not FILE. Example: rds totals < recording.bin";

pub const TOTALS_AFTER: &str =
    "Writes twelve rows 'total,NAME,VALUE', each followed by five fields '-':

  valid              valid blocks
  burst1 to burst5   corrected blocks, by burst length in bits
  lost               uncorrectable blocks
  bits               corrected bits
  groups             groups, one per row of 'rds list'
  complete           groups whose four blocks are valid or corrected
  acquired           how often block sync was acquired
  losses             how often it was lost

With --soft come six more: soft1 to soft6, blocks corrected by as many flips of
symbols; soft6 counts those by six or more. No block is corrected by a burst.

'rds --help' lists the errors.";

pub const ENCODE: &str = "Encode groups, given as lines of four hex words";

pub const ENCODE_USAGE: &str = "rds encode [OPTIONS] < INPUT > OUTPUT

Use < FILE, not FILE. Example: rds encode < groups.txt > bits.bin";

pub const ENCODE_AFTER: &str =
    "Each line has 16 hex digits of either case: the information words of blocks 1 to
4. Blanks are ignored, and empty lines skipped. Block 3 gets C or C' by the
version bit, bit 11 of the second word. The output is 13 bytes per group.

'rds --help' lists the errors.";

pub const HEX_INPUT: &str = "The input is hex digits of either case; blanks and line
ends are ignored";

pub const HEX_OUTPUT: &str = "Write each group as a line of 26 lower-case hex digits";

pub const BITS: &str = "Decode only the first N bits, 0 to 68719476736
[default: all bits of the input]";

pub const GAPS: &str = "Ignore the bits at these positions: FROM-TO,FROM-TO and so
on, in order; TO is the first position after a gap";

pub const BURST: &str = "Correct error bursts of up to N bits,
0 to 5";

pub const REACH: &str = "Acquire sync by two valid blocks, at most N blocks apart,
whose offset words fit each other, 1 to 8";

pub const LOSS: &str = "Drop sync after N consecutive bad blocks, 1 to 64; a
corrected block is bad; ignored with --share";

pub const SHARE: &str = "Instead of --loss: drop sync when N of the last blocks are
bad, 1 to the value of --of";

pub const OF: &str = "How many of the last blocks --share looks at,
1 to 64; ignored without --share";

pub const PIECES: &str = "Cut the recording into at most N pieces, 1 or more; the
output stays the same";

pub const WORKERS: &str = "Work in at most N threads, 1 to 256; the output stays
the same";

pub const PROGRESS: &str = "Show progress in one line on standard error";

pub const SOFT: &str = "The input is soft symbols, a signed byte each;
not with --hex or --burst";

pub const MARGIN: &str = "With --soft: correct a block only if all other corrections
weigh N more, 1 to 127";
