//! Steps in a folder, and what each answers.

/// The payload of the log that is written in a folder: document 7 with the words `hello world` in its one field is put.
pub(crate) const LOG_PAYLOAD: &str =
    "01000000 01 0700000000000000 02000000 00 05 68656c6c6f 00 05 776f726c64 00000000";

/// Steps, one after the other, and what each answers. A call on the disk is a look at a length (`length 0`), a write of bytes at a
/// place of a file (`write 0 2 0a0b`), a sync (`sync 0`), a removal (`remove 0`) and a read of so many bytes (`read 0 2 4`). A place
/// past the end fails, for no bytes too. `/` is the folder, which `new` makes anew, and `/0` what has the name 0 in it. `open` opens
/// such a path as a disk; `log` writes a log of one record to the disk and reads it, and `bytes` gives what is in a file. `longest`
/// gives a file the greatest length that the system allows: `end` is the place there, and `last` the one before. `bound` tries
/// whether permissions bind who runs the test; where they don't, what stands behind ` / ` is answered.
///
/// In turn: whether permissions bind; what a folder keeps; a folder and a device (`/dev/full`) where files would be; a file that
/// can't be opened; a folder that lets no file be made or removed, and one that can't be read; that only a folder is opened; that it
/// is open once; a log; a file of the greatest length, of which the first write writes nothing and the second one byte.
pub(crate) const STEPS: &str = "\
new / ⇒ done
mode / reading ⇒ done
bound /made ⇒ done
mode / all ⇒ done
new / ⇒ done
open / ⇒ done
length 0 ⇒ none
sync 0 ⇒ failed
write 0 0 68656c6c6f ⇒ done
write 1 0 78 ⇒ done
write 0 5 20776f726c64 ⇒ done
write 0 0 6a ⇒ done
sync 0 ⇒ done
sync 1 ⇒ done
length 0 ⇒ 11
read 0 0 3 ⇒ 6a656c
read 0 8 3 ⇒ 726c64
read 0 9 3 ⇒ failed
remove 0 ⇒ done
length 0 ⇒ none
sync 0 ⇒ failed
read 0 0 1 ⇒ failed
remove 0 ⇒ done
write 0 0 6162 ⇒ done
length 0 ⇒ 2
sync 0 ⇒ done
write 1 1 79 ⇒ done
sync 1 ⇒ done
write 1 18446744073709551615 7a ⇒ failed
write 1 3 7a ⇒ failed
read 1 3 0 ⇒ failed
length 1 ⇒ 2
write 2 1 7a ⇒ failed
length 2 ⇒ none
close ⇒ done
open / ⇒ done
read 0 0 2 ⇒ 6162
read 1 0 2 ⇒ 7879
length 2 ⇒ none
close ⇒ done
new / ⇒ done
folder /0 ⇒ done
link /2 /dev/full ⇒ done
open / ⇒ done
length 0 ⇒ failed
write 0 0 00 ⇒ failed
sync 0 ⇒ failed
remove 0 ⇒ failed
length 2 ⇒ failed
write 2 0 00 ⇒ failed
sync 2 ⇒ failed
write 1 0 00 ⇒ done
close ⇒ done
new / ⇒ done
file /0 closed ⇒ done
mode /0 nothing ⇒ done
open / ⇒ done
length 0 ⇒ failed / 6
close ⇒ done
new / ⇒ done
open / ⇒ done
write 0 0 636c6f736564 ⇒ done
close ⇒ done
mode / reading ⇒ done
open / ⇒ done
length 0 ⇒ 6
write 0 0 6f ⇒ done
sync 0 ⇒ done
write 1 0 00 ⇒ failed / done
remove 0 ⇒ failed / done
close ⇒ done
mode / nothing ⇒ done
open / ⇒ a device failed / done
close ⇒ done
mode / all ⇒ done
new / ⇒ done
open /0 ⇒ a device failed
file /0 text ⇒ done
open /0 ⇒ a device failed
open / ⇒ done
close ⇒ done
new / ⇒ done
open / ⇒ done
open / ⇒ a device failed
close ⇒ done
open / ⇒ done
close ⇒ done
new / ⇒ done
open / ⇒ done
log ⇒ 1:0100000001070000000000000002000000000568656c6c6f0005776f726c6400000000 to 48
close ⇒ done
bytes /2 ⇒ 012300000001000000000000000100000001070000000000000002000000000568656c6c6f0005776f726c640000000000
new / ⇒ done
longest /0 ⇒ done
open / ⇒ done
write 0 end 7a ⇒ failed
write 0 last 7a7b ⇒ failed
length 0 ⇒ longest
write 1 0 7a ⇒ done
close ⇒ done
removed / ⇒ done";
