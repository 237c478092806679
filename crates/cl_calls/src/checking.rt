//! The checks of a call, in their order.

ghost use Rattle.std.specs.Prelude.{◌≡◌, ◌≤◌, IfSome, IsNone, IsTrue, not};
ghost use Rattle.mp_request.specs.Entries.{is_active as active, is_persistent as persistent};
ghost use Rattle.mp_request.specs.Table.{has, request_at};
ghost use Rattle.cl_calls.specs.Checks.{are_named as are_named_of, are_statuses as are_statuses_of, checks};
ghost use Rattle.cl_calls.specs.Checks.{first_fault};
ghost use Rattle.cl_calls.specs.Checks.{has_parts as has_parts_of, has_region as has_region_of};
ghost use Rattle.cl_calls.specs.Checks.{has_room as has_room_of};
ghost use Rattle.cl_calls.specs.Checks.{has_size as has_size_of, has_slot as has_slot_of, is_array as is_array_of};
ghost use Rattle.cl_calls.specs.Checks.{is_buffer as is_buffer_of, is_comm, is_count, is_few, is_going as is_going_of};
ghost use Rattle.cl_calls.specs.Checks.{is_idle as is_idle_of, is_named as is_named_of, is_part as is_part_of, is_peer};
ghost use Rattle.cl_calls.specs.Checks.{is_tag as is_tag_of, is_unready as is_unready_of, name_checks};
ghost use Rattle.cl_calls.specs.Checks.{receiving_side as receiving_side_of, sending_side as sending_side_of};
ghost use Rattle.cl_calls.specs.Checks.{state_checks};

use crate::calls::ANY;
use crate::handles::handles_at;
use crate::needs::{Array, Named, Needs, Range, Region, Statuses, Tag};
use crate::sites::Site;
use mp_request::{Partitions, Requests, Transfer};
use mp_types::Code;
use part_phase::{Phases, are_parts, is_size};
use rv_image_types::ImageVersion;
use rv_memory::RankMemory;

/// How a rank stands when a call is checked.
#[derive(Clone, Copy)]
pub struct Standing<'a> {
    /// What the image fixes of the rank.
    pub site: &'a Site,
    pub memory: &'a RankMemory,
    /// The open requests.
    pub requests: &'a Requests,
    /// The sides of links that the rank has, and how far their phases are.
    pub phases: &'a Phases,
    /// How many bytes the output has.
    pub written: usize,
}

/// The sender's side of a partitioned transfer that the request of a handle has.
pub fn sending_side(requests: &Requests, handle: u64) -> Option<Partitions>
    ensures { result ≡ sending_side_of (request_at requests.now handle) }
{
    match requests.get(handle)?.transfer {
        Transfer::SendPartitions(side) => Some(side),
        _ => None,
    }
}

/// The receiver's side of a partitioned transfer that the request of a handle has.
pub fn receiving_side(requests: &Requests, handle: u64) -> Option<Partitions>
    ensures { result ≡ receiving_side_of (request_at requests.now handle) }
{
    match requests.get(handle)?.transfer {
        Transfer::ReceivePartitions(side) => Some(side),
        _ => None,
    }
}

fn is_persistent(requests: &Requests, handle: u64) -> bool
    ensures { result ≡ has persistent requests.now handle }
{
    match requests.get(handle) {
        None => false,
        Some(request) => request.state.is_persistent(),
    }
}

fn is_inactive(requests: &Requests, handle: u64) -> bool
    ensures { result ≡ not (has active requests.now handle) }
{
    match requests.get(handle) {
        None => true,
        Some(request) => !request.state.is_active(),
    }
}

fn is_named(requests: &Requests, request: Named) -> bool
    ensures { result ≡ is_named_of requests.now request }
{
    match request {
        Named::Nothing => true,
        Named::NullOrOpen(handle) => handle == 0 || requests.get(handle).is_some(),
        Named::Persistent(handle) => is_persistent(requests, handle),
        Named::Open(handle) => requests.get(handle).is_some(),
        Named::SendPart { handle, .. } => sending_side(requests, handle).is_some(),
        Named::ReceivePart { handle, .. } => receiving_side(requests, handle).is_some(),
    }
}

fn is_idle(requests: &Requests, request: Named) -> bool
    ensures { result ≡ is_idle_of requests.now request }
{
    match request {
        Named::Nothing => true,
        Named::NullOrOpen(_) => true,
        Named::Persistent(handle) => is_inactive(requests, handle),
        Named::Open(handle) => is_inactive(requests, handle),
        Named::SendPart { .. } => true,
        Named::ReceivePart { .. } => true,
    }
}

// Whether a partition that is named is one of its side's.
fn is_part(requests: &Requests, phases: &Phases, request: Named) -> bool
    ensures { result ≡ is_part_of requests.now phases.now request }
{
    match request {
        Named::SendPart { handle, part } => match sending_side(requests, handle) {
            None => true,
            Some(side) => part < u64::from(phases.sending(side.link).parts),
        },
        Named::ReceivePart { handle, part } => match receiving_side(requests, handle) {
            None => true,
            Some(side) => part < u64::from(phases.receiving(side.link).parts),
        },
        Named::Nothing | Named::NullOrOpen(_) | Named::Persistent(_) | Named::Open(_) => true,
    }
}

// Whether a phase is going on, where a partition is to be made ready.
fn is_going(requests: &Requests, phases: &Phases, request: Named) -> bool
    ensures { result ≡ is_going_of requests.now phases.now request }
{
    let Named::SendPart { handle, .. } = request else {
        return true;
    };
    match sending_side(requests, handle) {
        None => true,
        Some(side) => !phases.sending(side.link).all_freed(),
    }
}

// Whether it isn't ready yet.
fn is_unready(requests: &Requests, phases: &Phases, request: Named) -> bool
    ensures { result ≡ is_unready_of requests.now phases.now request }
{
    let Named::SendPart { handle, part } = request else {
        return true;
    };
    match sending_side(requests, handle) {
        None => true,
        Some(side) => {
            let phase = phases.sending(side.link);
            !(part < 16 && phase.is_ready(part as u8))
        }
    }
}

fn has_parts(region: Option<Region>) -> bool
    ensures { result ≡ has_parts_of region }
{
    match region {
        None => true,
        Some(region) => are_parts(region.parts),
    }
}

fn has_size(version: ImageVersion, region: Option<Region>) -> bool
    ensures { result ≡ has_size_of version region }
{
    match region {
        None => true,
        Some(region) => is_size(version, region.size),
    }
}

fn has_region(memory: &RankMemory, region: Option<Region>) -> bool
    requires { IfSome region (λ t. (t.parts ≤ 16) × (t.size ≤ 128)) }
    ensures { result ≡ has_region_of memory.now region }
{
    match region {
        None => true,
        Some(region) => {
            memory.in_range(region.address, region.parts * region.size, region.writing)
        }
    }
}

fn is_tag(tag: Tag) -> bool
    ensures { result ≡ is_tag_of tag }
{
    tag.tag <= 32767 || (tag.any && tag.tag == ANY)
}

fn is_buffer(memory: &RankMemory, range: Range) -> bool
    ensures { result ≡ is_buffer_of memory.now range }
{
    memory.in_range(range.address, range.count, range.writing)
}

fn are_statuses(memory: &RankMemory, statuses: Statuses) -> bool
    requires { statuses.count ≤ 255 }
    ensures { result ≡ are_statuses_of memory.now statuses }
{
    statuses.address == 0 || memory.in_range(statuses.address, 24 * statuses.count, true)
}

fn is_array(memory: &RankMemory, handles: Array) -> bool
    requires { handles.count ≤ 255 }
    ensures { result ≡ is_array_of memory.now handles }
{
    memory.in_range(handles.address, 8 * handles.count, false)
}

fn are_named(memory: &RankMemory, requests: &Requests, handles: Array) -> bool
    requires few { IsTrue (is_few handles) }
    requires inside { IsTrue (is_array_of memory.now handles) }
    ensures { result ≡ are_named_of memory.now requests.now handles }
{
    handles.count == 0 || requests.may_be_tested(handles_at(memory, handles).as_slice())
}

fn has_room(written: usize, growth: u64) -> bool
    ensures { result ≡ has_room_of written growth }
{
    growth == 0 || (growth <= 1048576 && written as u64 <= 1048576 - growth)
}

fn has_slot(requests: &Requests, needs: &Needs) -> bool
    ensures { result ≡ has_slot_of requests.now needs.now.slot }
{
    !needs.slot || requests.lowest_free().is_some()
}

// The code of the first check that fails of what the call names.
fn name_fault(standing: &Standing, needs: &Needs) -> Option<Code>
    ensures fault { result ≡ first_fault (name_checks standing.now.site.now standing.now.memory.now
        standing.now.requests.now needs.now) }
    ensures few { IsNone result → IsTrue (is_few needs.now.handles) }
{
    if !needs.known {
        return Some(Code::BadCall);
    }
    if needs.handles.count > 255 {
        return Some(Code::BadCount);
    }
    if !is_array(standing.memory, needs.handles) {
        return Some(Code::BadBuffer);
    }
    if !is_named(standing.requests, needs.request)
        || !are_named(standing.memory, standing.requests, needs.handles)
    {
        return Some(Code::BadRequest);
    }
    if !standing.site.is_comm(needs.comm) {
        return Some(Code::BadComm);
    }
    if !standing.site.is_peer(needs.comm, needs.peer) {
        return Some(Code::BadRank);
    }
    if !is_tag(needs.tag) {
        return Some(Code::BadTag);
    }
    None
}

// The code of the first check that fails of partitions and bytes, and of how the rank stands.
fn state_fault(standing: &Standing, needs: &Needs) -> Option<Code>
    requires { needs.now.statuses.count ≤ 255 }
    ensures fault { result ≡ first_fault (state_checks standing.now.site.now standing.now.memory.now
        standing.now.requests.now standing.now.phases.now standing.now.written needs.now) }
{
    let Standing {
        memory,
        requests,
        phases,
        ..
    } = *standing;
    if !has_parts(needs.region) || !is_part(requests, phases, needs.request) {
        return Some(Code::BadPartition);
    }
    if !has_size(standing.site.version, needs.region) || needs.buffer.count > 4096 {
        return Some(Code::BadCount);
    }
    if !has_region(memory, needs.region)
        || !is_buffer(memory, needs.buffer)
        || !are_statuses(memory, needs.statuses)
    {
        return Some(Code::BadBuffer);
    }
    if !is_idle(requests, needs.request) {
        return Some(Code::Active);
    }
    if !is_going(requests, phases, needs.request) {
        return Some(Code::NotActive);
    }
    if !is_unready(requests, phases, needs.request) {
        return Some(Code::AlreadyReady);
    }
    if !has_room(standing.written, needs.growth) || !has_slot(requests, needs) {
        return Some(Code::Full);
    }
    None
}

/// The code of the first check that fails. Where none does, the call is right.
pub fn fault(standing: &Standing, needs: &Needs) -> Option<Code>
    requires { needs.now.handles.count ≤ 255 → needs.now.statuses.count ≤ 255 }
    ensures fault { result ≡ first_fault (checks standing.now.site.now standing.now.memory.now
        standing.now.requests.now standing.now.phases.now standing.now.written needs.now) }
    ensures few { IsNone result → IsTrue (is_few needs.now.handles) }
    ensures array { IsNone result → IsTrue (is_array_of standing.now.memory.now needs.now.handles) }
    ensures named { IsNone result → IsTrue (is_named_of standing.now.requests.now needs.now.request) }
    ensures comm { IsNone result → IsTrue (is_comm standing.now.site.now needs.now.comm) }
    ensures peer { IsNone result → IsTrue (is_peer standing.now.site.now needs.now.comm needs.now.peer) }
    ensures tag { IsNone result → IsTrue (is_tag_of needs.now.tag) }
    ensures parts { IsNone result → IsTrue (has_parts_of needs.now.region) }
    ensures part { IsNone result →
        IsTrue (is_part_of standing.now.requests.now standing.now.phases.now needs.now.request) }
    ensures size { IsNone result → IsTrue (has_size_of standing.now.site.now.version needs.now.region) }
    ensures count { IsNone result → IsTrue (is_count needs.now.buffer) }
    ensures region { IsNone result → IsTrue (has_region_of standing.now.memory.now needs.now.region) }
    ensures buffer { IsNone result → IsTrue (is_buffer_of standing.now.memory.now needs.now.buffer) }
    ensures idle { IsNone result → IsTrue (is_idle_of standing.now.requests.now needs.now.request) }
    ensures going { IsNone result →
        IsTrue (is_going_of standing.now.requests.now standing.now.phases.now needs.now.request) }
    ensures unready { IsNone result →
        IsTrue (is_unready_of standing.now.requests.now standing.now.phases.now needs.now.request) }
{
    match name_fault(standing, needs) {
        Some(code) => Some(code),
        None => state_fault(standing, needs),
    }
}
