// The laws of the rules: each stands on the contract of a function, so that it is proved or the crate is not.
#![tactic(auto)]

ghost use Rattle.laws.specs.Answers.{Determined, Total};
ghost use Rattle.laws.specs.Barriers.{BarriersNotRepeated};
ghost use Rattle.laws.specs.Bodies.{BodiesLie};
ghost use Rattle.laws.specs.Buffers.{SubmissionsAccepted, WritesBegunWithin};
ghost use Rattle.laws.specs.Numbers.{NumbersAreNew};
ghost use Rattle.laws.specs.Reach.{ReachKept, RunsAccepted};
ghost use Rattle.laws.specs.Refusals.{RefusalsHaveCauses, RefusalsLeave};

use disk::Disk;

// The same answers of the disk lead to the same answer of the call.
pub fn answers_are_determined<D: Disk>()
    ensures { Determined D.Disk.did }
{}

// Every call in every state with every input has an answer.
pub fn calls_are_total<D: Disk>()
    ensures { Total D.Disk.did }
{}

// A refusal is one of the call's rows, and leaves all that its row does not name.
pub fn refusals_leave<D: Disk>()
    ensures { RefusalsLeave D.Disk.did }
{}

// Refusals for want of room, and of an opening that comes too early, have their cause.
pub fn refusals_have_causes<D: Disk>()
    ensures { RefusalsHaveCauses D.Disk.did }
{}

// The numbers of openings and tickets are new each time.
pub fn numbers_are_new<D: Disk>()
    ensures { NumbersAreNew D.Disk.did }
{}

// A write that has all landed has laid its body, and nothing else.
pub fn submissions_lay_the_body<D: Disk>()
    ensures { BodiesLie D.Disk.meaning D.Disk.did }
{}

// Every submission of a write is one that pwritev2(2) accepts.
pub fn submissions_are_accepted()
    ensures { SubmissionsAccepted }
{}

// A write that is given a ticket ends no further than a file can reach, and its ticket says so.
pub fn writes_begin_within_reach<D: Disk>()
    ensures { WritesBegunWithin D.Disk.did }
{}

// So every ticket of a write does, through every call.
pub fn tickets_stay_within_reach()
    ensures { ReachKept }
{}

// And then a run submits only what is accepted.
pub fn runs_submit_what_is_accepted()
    ensures { RunsAccepted }
{}

// After a barrier that failed, no call asks for another.
pub fn barriers_are_not_repeated()
    ensures { BarriersNotRepeated }
{}
