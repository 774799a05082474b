//! What the program says of itself.

/// The text of `--version`.
pub const VERSION: &[u8] = b"ram_drive 1.00\n";

/// The text of `--help`: what the program does, its forms, the script language in one screen, with the commands, and the
/// exit statuses.
pub const HELP: &[u8] = b"ram_drive: a DVD-RAM drive that hides dead blocks, over an image file

  ram_drive run IMAGE    answer the script on standard input over this image and
                         print the report; the file is made where there is none
  ram_drive groups IMAGE
                         the same over discs that have spares in each zone, in
                         place of one group of spares for all zones
  ram_drive generate IMAGE N
                         try a disc with a load: answer the two thousand steps
                         that are drawn from the number N, at most 2^64 - 1,
                         and print how often each answer came
  ram_drive audit IMAGE  print what this image holds: its geometry, its lists,
                         what each of their copies has, and each block that is
                         lost
  ram_drive check IMAGE  compare such a text, on standard input, with this
                         image: print yes, or no and the first line that differs
  ram_drive nbd IMAGE [FAULT]...
                         serve the disc to a client of the NBD protocol, on
                         standard input and output; each FAULT is a word such as
                         'fail 40', 'wear 40 2' or 'cut 9 torn', as below
  ram_drive mirror IMAGE IMAGE
                         answer a script for two discs that have the same
                         sectors: its lines are those of a mirror, as below
  ram_drive --help       print this text
  ram_drive --version    print the version

The script has one of these a line; words are parted by spaces, # is a comment:
  press ZONES SCALE PSA  make a new disc: 1 to 35 zones, scale 1 to 100, and at
                         least 1 primary spare block; the power is off
  power                  turn the power off and on again
  fail BLOCK             this block is dead from now on
  wear BLOCK N           this block is dead at its N-th use from now on
  tick                   the drive is idle: it writes the block that has waited
                         longest in its write cache
  scrub                  verify the next block of the disc: can it be read?
  scrub all              verify each block, and list those that cannot be read
  cut N FATE             cut the power at the N-th use of any block from now on;
                         a block being written then is left old, new or torn
  cdb HEX                a command block of 1 to 16 bytes, without data
  cdb HEX fill XX        with as many bytes as it takes, each of them XX
  cdb HEX count XX       the same, from XX on one more for each sector
  cdb HEX hex HEX        with exactly these data

The commands, by the first byte of the command block:
  00 TEST UNIT READY     23 READ FORMAT CAPACITIES  4a GET EVENT STATUS
  03 REQUEST SENSE       25 READ CAPACITY(10)          NOTIFICATION
  04 FORMAT UNIT         28 READ(10)                51 READ DISC INFORMATION
  12 INQUIRY             2a WRITE(10)               55 MODE SELECT(10)
  1a MODE SENSE(6)       2e WRITE AND VERIFY(10)    5a MODE SENSE(10)
  1b START STOP UNIT     2f VERIFY(10)              a8 READ(12)
  1e PREVENT ALLOW       35 SYNCHRONIZE CACHE       aa WRITE(12)
     MEDIUM REMOVAL      46 GET CONFIGURATION       ad READ DVD STRUCTURE
                                                    b6 SET STREAMING
After power the first command is told of it (check 6/29/00) in place of being
done, unless it is INQUIRY, REQUEST SENSE, GET CONFIGURATION or GET EVENT STATUS
NOTIFICATION. A new disc has to be formatted before it has sectors, like this:
  cdb 041100000000 hex 000000080000013000000800

A script for a mirror has press, power and comments as above, and these lines;
side a has the first image, side b the second, and one of them leads:
  format                 format both sides fully
  read L N               read N sectors, 1 to 1024, from sector L on
  write L N fill XX      write as many, each byte XX; or count XX or hex HEX, as
                         for cdb
  resync                 copy to the other side what it may lack, and mend the
                         side that leads
  lead                   tell which side leads
  lead a                 side a leads from the next power on; or b
  a fail BLOCK           the line fail, wear or cut for side a; or b

The exit status: 0 done, 1 a check said no, 2 other words than these, 3 a line
is not in the script language, or it or the script is too long, or a client does
not keep to the protocol, or a FAULT is refused, 4 the image failed, 5 the input
could not be read, 6 the output could not be written, 7 no memory, 8 a disc is
needed: there is none
";
