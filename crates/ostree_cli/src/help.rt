//! What `--help` and `--version` print.

/// The program's name and version, and the sum of the logic in which it is proved, as `rt version` tells it.
pub const VERSION: &[u8] = b"ostree_cli 0.1.0, proved in logic dac8208d650f15bf\n";

/// Each option, each command with its fields, what a script and a reply look like, examples, and what each exit status means.
pub const USAGE: &[u8] = b"\
Usage: ostree_cli [--helpers N] [--schedule LIST] COMMAND [FIELD]...

Works on the OSTree repository at ostree/repo below the current folder. Each
command first checks all that is there, and lays out what is missing.

Options, which may stand before, between or behind the fields, each once:
  --helpers N           how many helpers pulls have: 0 to 8, by default 4. There
                        are no pulls yet, so they have nothing to do.
  --schedule LIST       which lane acts when: lanes joined by a comma, each a
                        number from 0 to 15, or NUMBER*COUNT to act up to
                        100,000 times. A lane that has nothing to do, or waits
                        for another, is passed over. Behind the list the lanes
                        act in turn. So by `--schedule 0,1*1000 run` lane 0 acts
                        once, then lane 1 until its commands are done, and then
                        lane 0 goes on.
  --                    each word behind it is a field. Before it, a field of
                        two or more bytes doesn't begin with -, which may be
                        written as %2d.

Commands:
  init                  check the repository, and lay out what is missing
  run                   read a script from the input, and run its lanes
  refs                  list the refs with their commits
  status                list the deployments that boot
  rev-parse REV         print the commit that REV names
  log REV               list the commit, its parent and so on, each with its
                        time and subject
  ls REV PATH           list what the commit's tree has at PATH and below
  cat REV PATH          print what the file at PATH holds, as a field
  checkout REV NAME     lay the commit's tree out in checkout/NAME
  reset BRANCH COMMIT   make the ref name the commit
  drop BRANCH           remove the ref
  prune DEPTH           remove the objects that no ref leads to; DEPTH parents
                        of each ref's commit stay, too
  cleanup               remove the deployments that the list doesn't name
  --help                print this text
  --help COMMAND        print what the command does and what it answers
  --version             print the program's version

BRANCH is the name of a ref: 1 to 12 parts of A-Z a-z 0-9 - _ . that don't
begin with a dot, joined by /, at most 255 bytes in all, and not 64 digits.
COMMIT is 64 digits of 0-9 a-f. REV is a BRANCH or a COMMIT. PATH is / for the
root, or each name behind a /, at most 64 names and 1,024 bytes. NAME is one
name: 1 to 255 bytes of UTF-8 without / and zero, neither . nor .. DEPTH is a
number below 2^32. A byte of a field may be written as % and two digits of 0-9
a-f.

A script is lines that each end with a newline: ostree-script 1, then trees and
lanes. The commands of a lane run one after the other.
  tree N                                 trees are numbered from 0
  folder PATH UID GID MODE XATTRS
  file PATH UID GID MODE XATTRS CONTENT
  link PATH UID GID XATTRS TARGET
  end                                    its paths ascend, name by name
  lane
  commit BRANCH N SUBJECT BODY TIME      commit tree N, and let the ref name it
  ...                                    or any other command with its fields
  end
MODE is octal, XATTRS is ~ or NAME:VALUE,.. in hexadecimal digits, CONTENT is =
and the bytes, or *COUNT:BYTE. TIME is in seconds since 1970. An empty text is ~.

Replies, one a command, lane by lane, by the numbers of lane and command:
  0 0 ok                  done
  0 1 ok COMMIT           done: the commit that was made, or that was asked for
  0 2 ok N                done: N lines follow, each behind a space
  0 3 ok KEPT REMOVED     done: so many objects stay, and so many were removed
  0 4 refused NoRef       the command was refused, and changed no ref
  0 5 fault DiskFault     a call of the file system failed
A fault before the lanes is one line without numbers, such as `fault usage`.
ostree_cli(1) tells each reply and what to do.

Examples:
  ostree_cli init
  ostree_cli run <script
  ostree_cli log os/main
  ostree_cli ls os/main /etc
  ostree_cli cat os/main /etc/motd
  ostree_cli checkout os/main out
  ostree_cli prune 1
  ostree_cli --schedule 0,1*1000 run <script

Status:
  0  the commands were done
  1  a command was refused
  2  the words are no command line, or the input is no script
  3  memory was wanting
  4  a call of the file system failed, or contradicted an earlier one
  6  the output wasn't taken
  7  the input wasn't read
  8  the repository is damaged
The greatest that applies is answered.
";
