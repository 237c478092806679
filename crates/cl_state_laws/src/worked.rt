//! Worked rows, as theorems that compute: what a small guest's calls ask and are told.

ghost use Rattle.cl_state_laws.specs.CutRows.{CutRow, ReceivedRow, TakenRow, UnfitCutRow};
ghost use Rattle.cl_state_laws.specs.PartitionRows.{FreedRow, LinkRow, ReadyRow, SentRow, StartRow, UnreadyRow};
ghost use Rattle.cl_state_laws.specs.RequestRows.{ClaimedRow, FullRow, HandleRows, NullProbeRow, OpenRow};
ghost use Rattle.cl_state_laws.specs.RequestRows.{PersistentRow, ProbeRow, ReceiveRow, SsendRow, TestRow, WaitRow};
ghost use Rattle.cl_state_laws.specs.SeveralRows.{DoneAndPendingRow, NoneRow, OverlapRow, SeveralRefusals, StatusesRow};
ghost use Rattle.cl_state_laws.specs.SeveralRows.{TwoPendingRow, UnfitRow};
ghost use Rattle.cl_state_laws.specs.CallRows.{MisfitRow, NullRow, PutRow, RefusalRows, SendRow, TruncatedRow};
ghost use Rattle.cl_state_laws.specs.CallRows.{WaitingRow};

/// PUT writes behind the output, and ends with code 0.
pub fn puts_bytes()
    ensures { PutRow }
{}

/// SEND asks the hub with the bytes of its buffer, and ends with code 0 once it is posted.
pub fn sends_to_a_member()
    ensures { SendRow }
{}

/// A message of 10 bytes into a buffer of 4: code 7, count 4, and the byte behind the buffer is untouched.
pub fn truncates_a_longer_message()
    ensures { TruncatedRow }
{}

/// RECV waits on its post, polls it, and is told the message.
pub fn waits_for_a_message()
    ensures { WaitingRow }
{}

/// A reply that isn't one for the request ends the call with code 6.
pub fn refuses_a_misfit_reply()
    ensures { MisfitRow }
{}

/// RECV from the null process succeeds at once and asks nobody.
pub fn receives_from_the_null_process()
    ensures { NullRow }
{}

/// The first check that fails gives the code.
pub fn refuses_by_the_first_check()
    ensures { RefusalRows }
{}

/// IRECV, ISEND and ISSEND open the lowest free handle.
pub fn opens_the_lowest_free_handle()
    ensures { OpenRow }
{}

/// With 255 handles open IRECV is refused with code 8.
pub fn opens_no_256th_handle()
    ensures { FullRow }
{}

/// TEST of handle 0, of an inactive request and of a standard send completes at once, with the empty status.
pub fn tests_what_is_complete()
    ensures { TestRow }
{}

/// TEST of a receive asks for its message: flag 0 and nothing written without one, flag 1 and a free handle with one.
pub fn tests_a_receive()
    ensures { ReceiveRow }
{}

/// A waiting WAIT reads its arguments anew, with all checks.
pub fn waits_anew()
    ensures { WaitRow }
{}

/// SSEND waits on its post, and asks whether it is complete.
pub fn sends_synchronously()
    ensures { SsendRow }
{}

/// Probes tell what a receive would give; matched ones give the message's handle.
pub fn probes()
    ensures { ProbeRow }
{}

/// Nothing comes from the null process; its message handle is -2, of which a receive asks nobody.
pub fn probes_the_null_process()
    ensures { NullProbeRow }
{}

/// IMRECV of a claimed message gives a request, and of one that isn't claimed code 14.
pub fn receives_a_claimed_message()
    ensures { ClaimedRow }
{}

/// A persistent request is made inactive, started by its post, inactive again when it completes, and freed.
pub fn starts_and_frees()
    ensures { PersistentRow }
{}

/// The codes of calls whose handles are wrong, and of those that find no free one.
pub fn refuses_handles()
    ensures { HandleRows }
{}

/// TESTALL of one done and one pending changes neither until both can complete.
pub fn completes_all_or_none()
    ensures { DoneAndPendingRow }
{}

/// One truncated message is enough for the code of TESTALL and of WAITALL.
pub fn truncates_one_of_several()
    ensures { TwoPendingRow }
{}

/// Messages that aren't those asked for end TESTALL with code 6, and nothing changes.
pub fn refuses_unfit_messages()
    ensures { UnfitRow }
{}

/// Null and inactive requests have the empty status; the statuses may lie over the array of handles.
pub fn writes_all_statuses()
    ensures { StatusesRow }
{}

/// Statuses that lie over a buffer are written last.
pub fn writes_bytes_before_statuses()
    ensures { OverlapRow }
{}

/// WAITALL of no handles ends at once, whatever its addresses.
pub fn completes_none()
    ensures { NoneRow }
{}

/// The codes of TESTALL whose count, array, handles or statuses are wrong.
pub fn refuses_several()
    ensures { SeveralRefusals }
{}

/// PREADY of partitions 3, 0, 2 and 1, each with its bytes.
pub fn makes_partitions_ready()
    ensures { ReadyRow }
{}

/// PREADY of a partition that is ready, of one that isn't there, and before START: codes 15, 9 and 16.
pub fn refuses_partitions()
    ensures { UnreadyRow }
{}

/// TEST and WAIT of a sender look at the lowest partition alone that isn't freed; WAIT is held where it isn't ready.
pub fn frees_the_lowest_partition()
    ensures { FreedRow }
{}

/// A partitioned send completes with the last partition that is freed, with the empty status.
pub fn completes_a_partitioned_send()
    ensures { SentRow }
{}

/// START begins a phase, in which no partition is ready or freed.
pub fn starts_a_phase()
    ensures { StartRow }
{}

/// Two transfers of equal tag have a link each; a link that doesn't fit is refused with code 6.
pub fn shapes_the_sides_of_links()
    ensures { LinkRow }
{}

/// A receiver that cuts a total into 2 of 96 where the sender cut it into 3 of 64: what PARRIVED asks, writes and
/// answers.
pub fn sees_partitions_arrive()
    ensures { CutRow }
{}

/// PARRIVED of a request that was wholly taken, or is inactive: 1, and nobody is asked.
pub fn tells_what_was_taken()
    ensures { TakenRow }
{}

/// A cut of another total, or of too many partitions, ends the call with code 6 and isn't kept.
pub fn refuses_unfit_cuts()
    ensures { UnfitCutRow }
{}

/// TEST and WAIT of a receiver take one box a turn; with the last one the status has the source, the tag and all bytes.
pub fn completes_a_partitioned_receive()
    ensures { ReceivedRow }
{}
