//! What `--help` prints about the program, about each mode and about each option.

/// What the help says of a mode.
#[derive(Clone, Copy)]
pub(crate) struct ModeHelp {
    /// What selects the mode.
    pub(crate) name: &'static str,
    /// What the program's help says of it.
    pub(crate) about: &'static str,
    /// What its own help says after its usage.
    pub(crate) after: &'static str,
}

/// What the help of a mode says of an option.
#[derive(Clone, Copy)]
pub(crate) struct OptionHelp {
    /// What follows the two hyphens.
    pub(crate) name: &'static str,
    /// What its value is called.
    pub(crate) value_name: &'static str,
    pub(crate) about: &'static str,
    /// What `--help` says in place of that.
    pub(crate) long: Option<&'static str>,
}

/// What the program is.
pub(crate) const ABOUT: &str =
    "confscript plans the membership changes of an etcd or Raft cluster and shows
how many servers may fail at each step, with code that is proved correct.";

/// The help of the program.
pub(crate) const PROGRAM: &str = "Examples:
  confscript plan --from 'voters=(1 2 3)' --to 'r3 v4' --down 3 --output table
  (etcdctl member list -w json; echo r9372538179322589801) | confscript plan
  printf 'v1\\nv2\\nl3\\n' | confscript lines
  confscript check script.txt
  confscript undo --steps 2 script.txt

On an etcd cluster, confscript-etcd carries a plan out.

Exit statuses:
  0  done
  1  check reports a difference, or undo or plan has no plan, or a plan stalls,
     or next answers a line with an error
  2  the arguments or the input are wrong
  3  a file, a read or a write failed, or memory ran out

'confscript help MODE' describes what a mode reads and prints.";

/// The mode `lines`.
pub(crate) const LINES: ModeHelp = ModeHelp {
    name: "lines",
    about: "Applies one change per line",
    after: "Reads one change per line and applies it to the configuration, which begins
empty. Prints the configuration after each line, or why the change is refused.
The exit status is 0 then too, as after a line that is no change.

Changes:
  v1  server 1 becomes a voter
  l1  server 1 becomes a learner
  r1  server 1 is removed
  u1  server 1 is updated, which changes nothing here

For the lines
  v1
  v2
  l3
  r1
  r2

it prints
  voters=(1)
  voters=(1 2)
  voters=(1 2) learners=(3)
  voters=(2) learners=(3)
  removed all voters",
};

/// The mode `check`.
pub(crate) const CHECK: ModeHelp = ModeHelp {
    name: "check",
    about: "Runs a script and reports what differs",
    after: "Runs a script, and reports each directive whose actual output differs from the
expected one, with both. The counts come last. The status is 1 if a directive
differs.

A directive is a line with a command and its arguments, lines of input, a line
of four dashes, lines of expected output, and an empty line:

  simple
  v1
  ----
  voters=(1)
  1: StateProbe match=0 next=1

Changes stand on the lines below the command, not after it on its line. Without
the line of dashes the next directive is read as input. A blank line ends the
expected output, unless the output stands between two pairs of lines of dashes.
A directive line that ends in a backslash continues on the next. A line that
begins with # is a comment.

The script files of etcd's raft expect --next-floor 0.

Commands that read a list of changes (see confscript help lines):
  simple         at most one of them changes who votes
  enter-joint    enters a joint configuration; autoleave=true or false (default)
  leave-joint    leaves it; the list has to be empty
  conf-change    leaves with no change, is simple with one, enters with more;
                 transition=auto (default), implicit or explicit

Commands that read something else, or nothing:
  conf-state     prints the configuration as a ConfState
  restore        starts again from the ConfState that it reads
  undo           undoes the last changes; steps=N (default 1)
  ack            makes a member acknowledge an index; id=N index=N
  commit-index   prints the index that the configuration commits
  committed      charts what the voters have acknowledged, and prints what
                 they commit; cfg=(1,2) cfgj=(3) idx=(7,_,9)
  vote           prints the result of a vote; cfg=(1,2) cfgj=(3) votes=(y,n,_)

For the script
  simple
  v1
  ----
  voters=(2)

it prints
  1: simple
  - voters=(2)
  + voters=(1)
  + 1: StateProbe match=0 next=1
  1 directives, 1 mismatches",
};

/// The mode `rewrite`.
pub(crate) const REWRITE: ModeHelp = ModeHelp {
    name: "rewrite",
    about: "Runs a script and prints it with its actual output",
    after: "Runs a script (see confscript help check), and prints it again with the actual
output of each directive in place of the expected one. The result checks clean
with the same options, if it is shorter than 1 GiB and the script does not end
in several blank lines.

For the script
  # the first voter
  simple
  v1

it prints
  # the first voter
  simple
  v1
  ----
  voters=(1)
  1: StateProbe match=0 next=1",
};

/// The mode `undo`.
pub(crate) const UNDO: ModeHelp = ModeHelp {
    name: "undo",
    about: "Runs a script and prints the script that undoes its last changes",
    after: "Runs a script (see confscript help check), ignoring the output that it expects,
and prints a second script, which undoes the last changes of the first. If the
first checks clean, so do the two joined by an empty line.

If there is nothing to do, it prints a comment. If there is no plan, it prints
the reason in a comment, and the status is 1.

For the script
  simple
  v1
  ----

  simple
  v2
  ----

it prints
  simple
  r2
  ----
  voters=(1)
  1: StateProbe match=0 next=1",
};

/// The mode `plan`.
pub(crate) const PLAN: ModeHelp = ModeHelp {
    name: "plan",
    about: "Plans the changes from one configuration to another",
    after: "Reads pairs of lines, the current configuration and the target, or one pair
from --from and --to. Prints for each pair the steps that lead from the one to
the other; except in json, an empty line separates two pairs. Blank lines and
lines that begin with # are skipped.

A configuration is written in one of these forms:
  voters=(1 2)&&(1 2 3) learners=(4) learners_next=(3) autoleave
              as this program prints it, without what is empty
  Voters:[1 2 3] VotersOutgoing:[] Learners:[4] LearnersNext:[] AutoLeave:false
              as the command conf-state prints it
  {..}        the JSON of a raftpb.ConfState, or what etcdctl member list
              -w json prints
The target may also be a list of changes, as r1 r2 v4 v5 (see confscript help
lines). They are made all at once. If the current configuration is joint, it is
left first.

Strategies:
  shortest        at most four steps. No plan has fewer steps, or names a member
                  in fewer changes; a member that can keep its progress keeps it
  learners-first  at most one step more: new voters are learners first
  one-at-a-time   each step changes one member; a joint configuration is left
                  first, and the target must not be joint
If none is given, it is one-at-a-time from what etcdctl prints, since etcd's
server changes one member at a time, and shortest from any other form.

Outputs:
  steps   one step a line
  script  a script that restores the current configuration and takes the steps;
          those of all pairs are one script
  table   who votes and learns at each step, and how many failures it tolerates
  json    an object for each change that is proposed to etcd; each change of a
          simple step is one

A plan does not see logs: a new member begins with an empty one. From [1 2 3] to
[3 4 5] the shortest plan commits nothing until 4 or 5 has caught up.

If there is no plan, it prints the reason in a comment (or in json), and the
status is 1. The status is also 1 if the plan stalls: some configuration of it,
the first one among them, cannot commit with the ids of --down down. In steps
and script a comment says so. Each id of --down has to be a member of one of the
two configurations.

For the lines
  voters=(1 2 3)
  voters=(2 3 5)

it prints
  enter-joint autoleave=false r1 v5
  leave-joint

and with --strategy one-at-a-time
  simple l5
  simple v5
  simple r1",
};

/// The mode `next`.
pub(crate) const NEXT: ModeHelp = ModeHelp {
    name: "next",
    about: "Says what to do next on the way to a target",
    after: "Reads views of a cluster in JSON, one per line, and answers each with one line
of JSON, before it reads the next: what to do next on the way to a target. Blank
lines and lines that begin with # are skipped. Nothing is kept between lines: do
what is answered, and ask again.

Keys of a line, of which the first three have to be there:
  conf_state     the configuration that the leader has applied, as the JSON of a
                 ConfState or as etcdctl member list -w json prints it
  target         the configuration to reach, in the same form
  strategy       learners-first or one-at-a-time
  conf_index     who has this index knows that configuration
  lead           the id of the leader, or 0
  commit         what is committed
  pending_conf_index  the index of a change that is not applied, or 0
  progress       what is known of each member: id, match and recent_active
  running        ids of the servers that were started, and not stopped for good
  retired        ids of the servers that were stopped for good
  max_lag        how many entries a member that has caught up may lack
  down           ids of servers that do not come back
A key that is missing or null is 0, false or empty; other keys are ignored. A
leader has a conf_index, and its own progress if it is a member. The target has
no auto-leave.

Answers:
  {\"action\":\"start\",\"ids\":[4]}  and stop and transfer in the same form
  {\"action\":\"propose\",..}       the keys of the first line of plan --output json
  {\"action\":\"wait\",\"ids\":[4],\"why\":\"behind\"}  or no-leader, pending, heard,
                              unheard, leaving
  {\"action\":\"stuck\",\"ids\":[1],\"why\":\"quorum-lost\"}  or stalls, reused
  {\"action\":\"done\"}
  {\"error\":\"..\"}              what is wrong with the line, by its key
The status is 1 if a line was answered with an error.

For the line
  {\"conf_state\":{\"voters\":[1]},\"conf_index\":5,\"lead\":1,\"progress\":[{\"id\":1,\"match\":5}],\"running\":[1],\"target\":{\"voters\":[1,2]},\"strategy\":\"learners-first\"}

it prints
  {\"action\":\"start\",\"ids\":[2]}",
};

/// The option `--history`.
pub(crate) const HISTORY: OptionHelp = OptionHelp {
    name: "history",
    value_name: "N",
    about: "Earlier configurations to keep (100 if left out)",
    long: None,
};

/// The option `--next-floor`.
pub(crate) const NEXT_FLOOR: OptionHelp = OptionHelp {
    name: "next-floor",
    value_name: "N",
    about: "Initial next index of a member",
    long: Some("The next index of a new member in an empty log (1 if left out)"),
};

/// The option `--steps`.
pub(crate) const STEPS: OptionHelp = OptionHelp {
    name: "steps",
    value_name: "N",
    about: "Changes to undo (1 if left out)",
    long: None,
};

/// The option `--strategy`.
pub(crate) const STRATEGY: OptionHelp = OptionHelp {
    name: "strategy",
    value_name: "NAME",
    about: "How the plan is made (if left out: by the form of the current configuration)",
    long: None,
};

/// The option `--output`.
pub(crate) const OUTPUT: OptionHelp = OptionHelp {
    name: "output",
    value_name: "FORM",
    about: "How the plan is printed (steps if left out)",
    long: None,
};

/// The option `--down`.
pub(crate) const DOWN: OptionHelp = OptionHelp {
    name: "down",
    value_name: "IDS",
    about: "Ids that are down, separated by commas",
    long: None,
};

/// The option `--from`.
pub(crate) const FROM: OptionHelp = OptionHelp {
    name: "from",
    value_name: "TEXT",
    about: "The current configuration, in place of FILE",
    long: None,
};

/// The option `--to`.
pub(crate) const TO: OptionHelp = OptionHelp {
    name: "to",
    value_name: "TEXT",
    about: "The target, or changes of the current configuration",
    long: None,
};
