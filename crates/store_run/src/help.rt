//! What the programs tell of their commands.

/// The version of the programs, as `--version` prints it. The header, CHANGELOG and the packages have the same one.
pub const VERSION: &str = "1.1.0";

/// What a help has after the options: the commands, `compact`, `export`, `import`, the statuses.
pub const HELP: &str = "\
The commands, a line each, with one tab between their parts:
  set USER TEXT               the text is the user's from now on
  check USER PASSWORD         whether the user's text matches the password
  upgrade USER SALT PASSWORD  as check; where it matches the text is a new one, unless the old
                              one asks for as much or more
  remove USER                 the user is taken away
  list                        each user with its text, as the command that sets it
A user is a name of 1 to 64 bytes of UTF-8 without control characters and colons, a text one of
a shadow or htpasswd file. A salt is 16 bytes in Base64 without padding, 22 characters; with
--upgrade-to sha256-crypt or sha512-crypt it is 12 bytes, 16 characters.
The replies are ok, match, mismatch, upgraded, kept, a listing, or a word for what is refused;
pwstore(1) has them all.

With 'compact' after FILE no command is read: FILE is written anew, a line for each user.
With 'export' each user is written with its text, USER:TEXT, as a shadow or htpasswd file has it.
With 'import' the users of such a file are set: the reply to each line is that of a set. With --from
its texts are those of a maker, which are converted; the reply to a line is bad-command where its
text isn't, and 'pwtool survey --from' tells why. With --from ldif it is a dump of a directory.

Statuses:
   0  the whole input was read, and each reply is ok, match, upgraded, kept or a listing
   1  the whole input was read, and some reply is another
   3  a read of the input failed; the whole lines that were taken are answered
   4  a write to standard output failed
   5  out of memory; the lines before are answered
   6  the input has more than 2^40 bytes
   7  a write of FILE failed; changes since then are answered disk-fault
   8  a word of the command line isn't UTF-8
  64  the words of the command line are no form of the program
  65  FILE isn't one that a run can have left, or is too long to be written anew; it is not changed
  66  FILE, or the file of users, can't be opened
  73  the new file that is to be FILE isn't made: what has its name, or a right of others, is in the way
  75  another process has FILE open";
