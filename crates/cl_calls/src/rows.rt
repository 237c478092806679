//! The table of the calls: a row a call, with its number, its name and its arguments.

/// The number of a SEND.
pub const SEND: u64 = 16;

/// The number of a RECV.
pub const RECV: u64 = 18;

/// The number of an IRECV.
pub const IRECV: u64 = 21;

/// The number of a WAIT.
pub const WAIT: u64 = 23;

/// The number of a PREADY.
pub const PREADY: u64 = 42;

/// The number of a PARRIVED.
pub const PARRIVED: u64 = 43;

/// The numbers of all calls are below this one, which is one more than the greatest of them.
pub const NUMBERS_END: u64 = 44;

/// The one table, one line a call: its number, which stands in a7, its name, as docs/CALLS.md lists it, and the call that
/// the registers of `$hart` spell. It is handed to the macro `$rows`, which takes of each row what it needs.
macro_rules! calls {
    ($rows:ident, $hart:ident) => {
        $rows! {
            $hart
            0 "EXIT" Call::Exit { code: argument($hart, 0) };
            1 "PUT" Call::Put { buffer: argument($hart, 0), count: argument($hart, 1) };
            2 "RANK" Call::Rank { comm: argument($hart, 0) };
            3 "SIZE" Call::Size { comm: argument($hart, 0) };
            4 "HART" Call::Hart;
            SEND "SEND" Call::Send(Sending::of($hart));
            17 "SSEND" Call::Ssend(Sending::of($hart));
            RECV "RECV" Call::Recv { receiving: Receiving::of($hart), status: argument($hart, 5) };
            19 "ISEND" Call::Isend(Sending::of($hart));
            20 "ISSEND" Call::Issend(Sending::of($hart));
            IRECV "IRECV" Call::Irecv(Receiving::of($hart));
            22 "TEST" Call::Test(Completing::of($hart));
            WAIT "WAIT" Call::Wait(Completing::of($hart));
            24 "IPROBE" Call::Iprobe(Probing::of($hart));
            25 "PROBE" Call::Probe(Probing::of($hart));
            26 "IMPROBE" Call::Improbe(Probing::of($hart));
            27 "MPROBE" Call::Mprobe(Probing::of($hart));
            28 "IMRECV" Call::Imrecv(Claimed::of($hart));
            29 "MRECV" Call::Mrecv { claimed: Claimed::of($hart), status: argument($hart, 3) };
            30 "SEND_INIT" Call::SendInit(Sending::of($hart));
            31 "RECV_INIT" Call::RecvInit(Receiving::of($hart));
            32 "START" Call::Start { handle: argument($hart, 0) };
            33 "REQUEST_FREE" Call::RequestFree { handle: argument($hart, 0) };
            34 "TESTALL" Call::Testall(Several::of($hart));
            35 "WAITALL" Call::Waitall(Several::of($hart));
            40 "PSEND_INIT" Call::PsendInit(Partitioning::of($hart));
            41 "PRECV_INIT" Call::PrecvInit(Partitioning::of($hart));
            PREADY "PREADY" Call::Pready { handle: argument($hart, 0), part: argument($hart, 1) };
            PARRIVED "PARRIVED" Call::Parrived { handle: argument($hart, 0), part: argument($hart, 1) };
        }
    };
}

pub(crate) use calls;
