//! What `--help COMMAND` prints.
use crate::help::USAGE;

const INIT: &[u8] = b"\
ostree_cli init

Checks the repository below the current folder, object by object, and lays out
what is missing of it. It prints nothing.
";

const RUN: &[u8] = b"\
ostree_cli run <SCRIPT

Reads a script of trees and of up to 8 lanes from the input, and runs the lanes
beside each other. Each command gives a reply, behind the numbers of its lane
and of the command in it. `ostree_cli --help` has the lines of a script.
";

const COMMIT: &[u8] = b"\
commit BRANCH N SUBJECT BODY TIME    as a line of a lane of a script

Commits tree N of the script, and makes the ref name the commit. The parent is
the commit that the ref names so far.
  ok COMMIT                the commit that was made
  refused BadTree PATH     the tree isn't one; the least such path
  refused RefClash BRANCH  the ref can't stand beside this one
  refused RefMoved A B     another lane changed the ref, from A to B
  refused TooMany N        the repository would have more objects than it may
";

const REFS: &[u8] = b"\
ostree_cli refs

Lists the refs, ascending by the bytes of their names.
  ok COUNT                 and rows BRANCH COMMIT
";

const STATUS: &[u8] = b"\
ostree_cli status

Lists the deployments that boot, the one that boots first in front.
  ok COUNT                 and rows INDEX STATEROOT COMMIT.SERIAL LANE, where
                           LANE is - as long as no lane uses the deployment
";

const REV_PARSE: &[u8] = b"\
ostree_cli rev-parse REV

Prints the commit that REV names.
  ok COMMIT
  refused NoRef            there is no ref of this name
  refused NoCommit COMMIT  there is no such commit
  refused Partial COMMIT   a mark says that objects of it may be missing
";

const LOG: &[u8] = b"\
ostree_cli log REV

Lists the commit that REV names, its parent and so on.
  ok COUNT                 and rows COMMIT TIME SUBJECT
  refused NoRef            there is no ref of this name
  refused NoCommit COMMIT  there is no such commit
  refused Partial COMMIT   a mark says that objects of it may be missing
";

const LS: &[u8] = b"\
ostree_cli ls REV PATH

Lists what the commit's tree has at PATH and below it.
  ok COUNT                 and rows: folder UID GID MODE PATH
                                     leaf OBJECT PATH
  refused NoPath PATH      nothing stands there
  refused NoRef, NoCommit COMMIT, Partial COMMIT
";

const CAT: &[u8] = b"\
ostree_cli cat REV PATH

Prints what the regular file at PATH of the commit's tree holds, as a field.
  ok CONTENT
  refused NoPath PATH      nothing stands there
  refused NotFile PATH     a folder or a link stands there
  refused NoRef, NoCommit COMMIT, Partial COMMIT
";

const CHECKOUT: &[u8] = b"\
ostree_cli checkout REV NAME

Lays the commit's tree out in checkout/NAME. Each file there is a hard link to
its object, so whoever writes into one damages the repository.
  ok
  refused DestExists PATH  something stands there already
  refused NoRef, NoCommit COMMIT, Partial COMMIT
";

const RESET: &[u8] = b"\
ostree_cli reset BRANCH COMMIT

Makes the ref name the commit.
  ok
  refused RefClash BRANCH  the ref can't stand beside this one
  refused RefMoved A B     another lane changed the ref, from A to B
  refused NoCommit COMMIT, Partial COMMIT
";

const DROP: &[u8] = b"\
ostree_cli drop BRANCH

Removes the ref. The commits that it named stay until a prune.
  ok
  refused NoRef            there is no ref of this name
  refused RefMoved A B     another lane changed the ref, from A to B
";

const PRUNE: &[u8] = b"\
ostree_cli prune DEPTH

Removes the objects that no ref leads to. Of each ref's commit DEPTH parents
stay, too, with their trees; 0 keeps the refs' commits alone. What a command of
another lane works with stays as well.
  ok KEPT REMOVED          how many objects stay, and how many were removed
";

const CLEANUP: &[u8] = b"\
ostree_cli cleanup

Removes the deployments that the list of those that boot doesn't name, each with
its origin file. Where no list is selected it removes nothing.
  ok
";

/// What a command does, and what it answers; of any other word what `--help` alone prints.
pub fn detail(command: &str) -> &'static [u8] {
    match command {
        "init" => INIT,
        "run" => RUN,
        "commit" => COMMIT,
        "refs" => REFS,
        "status" => STATUS,
        "rev-parse" => REV_PARSE,
        "log" => LOG,
        "ls" => LS,
        "cat" => CAT,
        "checkout" => CHECKOUT,
        "reset" => RESET,
        "drop" => DROP,
        "prune" => PRUNE,
        "cleanup" => CLEANUP,
        _ => USAGE,
    }
}
