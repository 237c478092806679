//! Answers of `cl_calls`.

ghost use Rattle.std.specs.Prelude.{◌≡◌, ◌≤◌, ℕ, Some, true, false};
ghost use Rattle.mp_types.specs.declared.codes.Code.TheVariants as code;
ghost use Rattle.cl_calls.specs.declared.needs.Named.TheVariants.{NullOrOpen, Open, Persistent, ReceivePart, SendPart};
ghost use Rattle.test_calls.specs.Faults.{FullTableRows, KindRows, OrderRows, OutputRows, SeveralStatuses};
ghost use Rattle.test_calls.specs.Partitioned.{PartRows, ShapeRows, SideRows};
ghost use Rattle.test_calls.specs.Places.{CommRows, MemberRows, PeerRows};
ghost use Rattle.test_calls.specs.Spelled.{LocalCalls, NoCalls, PartitionedCalls, ProbeCalls, RequestCalls};
ghost use Rattle.test_calls.specs.Spelled.{TransferCalls};

use cl_calls::{Call, Completing, Needs, Standing, fault};
use mp_types::Code;

/// Numbers 0 to 4 spell EXIT, PUT, RANK, SIZE and HART.
pub fn local_calls()
    ensures { LocalCalls }
{}

/// Numbers 16 to 21 spell SEND, SSEND, RECV, ISEND, ISSEND and IRECV.
pub fn transfer_calls()
    ensures { TransferCalls }
{}

/// Numbers 24 to 29 spell IPROBE, PROBE, IMPROBE, MPROBE, IMRECV and MRECV.
pub fn probe_calls()
    ensures { ProbeCalls }
{}

/// Numbers 22, 23 and 30 to 35 spell TEST, WAIT, SEND_INIT, RECV_INIT, START, REQUEST_FREE, TESTALL and WAITALL.
pub fn request_calls()
    ensures { RequestCalls }
{}

/// Numbers 40 to 43 spell PSEND_INIT, PRECV_INIT, PREADY and PARRIVED.
pub fn partitioned_calls()
    ensures { PartitionedCalls }
{}

/// Other numbers spell no call.
pub fn no_calls()
    ensures { NoCalls }
{}

/// Each communicator has its own members in its own order, and a rank its own place.
pub fn members()
    ensures { MemberRows }
{}

/// A communicator is right where the rank is a member of it.
pub fn communicators()
    ensures { CommRows }
{}

/// The null process may be sent to and received from, any rank may be received from and not sent to, and neither is the
/// other side of a partitioned transfer.
pub fn peers()
    ensures { PeerRows }
{}

/// The checks go in their order, and at 4,096 bytes and tag 32,767 nothing is wrong.
pub fn checks_in_order()
    ensures { OrderRows }
{}

/// Each kind of call has the checks of its own arguments.
pub fn checks_of_each_kind()
    ensures { KindRows }
{}

/// The output's last byte may be put, and no more.
pub fn full_output()
    ensures { OutputRows }
{}

/// All handles and all statuses of several requests are checked.
pub fn several_statuses()
    ensures { SeveralStatuses }
{}

/// Each call that opens a request needs a free handle, and no other does.
pub fn full_table()
    ensures { FullTableRows }
{}

/// The shapes of partitioned transfers have their limits, in both versions of images.
pub fn shapes()
    ensures { ShapeRows }
{}

/// The checks of one side of a partitioned transfer go in their order.
pub fn sides()
    ensures { SideRows }
{}

/// A partition is one of its side's, and is made ready once in a phase.
pub fn partitions()
    ensures { PartRows }
{}

/// A number that is no call's is refused with code 5, whatever else is wrong.
pub fn unknown_call(standing: &Standing, needs: &Needs) -> Option<Code>
    requires few { needs.now.handles.count ≤ 255 → needs.now.statuses.count ≤ 255 }
    requires unknown { needs.now.known ≡ false }
    ensures { result ≡ Some code.BadCall }
{
    fault(standing, needs)
}

/// 256 handles are too many, wherever their array lies.
pub fn many_handles(standing: &Standing, needs: &Needs) -> Option<Code>
    requires known { needs.now.known ≡ true }
    requires many { needs.now.handles.count ≡ 256 }
    ensures { result ≡ Some code.BadCount }
{
    fault(standing, needs)
}

/// TEST and WAIT take the null request and open ones, START persistent ones, REQUEST_FREE open ones, and PREADY and
/// PARRIVED the two sides of partitioned transfers.
pub fn named(call: &Call) -> Needs
    ensures test { (completing : Completing) → call.now ≡ Call.Test completing
        → result.request ≡ NullOrOpen completing.handle }
    ensures wait { (completing : Completing) → call.now ≡ Call.Wait completing
        → result.request ≡ NullOrOpen completing.handle }
    ensures start { (handle : ℕ) → call.now ≡ Call.Start handle → result.request ≡ Persistent handle }
    ensures free { (handle : ℕ) → call.now ≡ Call.RequestFree handle → result.request ≡ Open handle }
    ensures ready { (handle part : ℕ) → call.now ≡ Call.Pready handle part → result.request ≡ SendPart handle part }
    ensures arrived { (handle part : ℕ) → call.now ≡ Call.Parrived handle part
        → result.request ≡ ReceivePart handle part }
{
    call.needs()
}
