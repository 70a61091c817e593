//! Sessions of the second protocol over plain maps: what is told for commands, however their bytes come.

use bytes::BytesMut;
use mt_caller::{Caller, CallerFault};
use mt_resp::{Status, Told};
use mt_resp_session::{Knows, Session, Stop, answer};
use mt_rows::{Command, Key, PlainMap, Refusal, Reply};
use mt_session::{PlainCaller, PlainTenant};
use std::alloc::{Alloc, AllocError, Global};
use std::process::Abort;

// A plain caller that settles. Its cursors are one more than the first byte of their keys.
#[derive(Drop)]
struct Server {
    caller: PlainCaller,
}

impl Server {
    // Of the tenants 0, which may have 80 pairs, and 7, which may have one.
    fn new(alloc: Global) -> Result<Server, AllocError> {
        let mut tenants = Vec::with_capacity(alloc, 2)?;
        for (tenant, quota) in [(0, 80), (7, 1)] {
            let map = PlainMap::new(alloc);
            tenants.push(PlainTenant { tenant, quota, map })?;
        }
        Ok(Server {
            caller: PlainCaller::new(tenants),
        })
    }
}

impl Caller for Server {
    ghost exchanges = { λ _ _ _. Unit {0} };

    fn open(&mut self, tenant: u32) -> Result<(), Refusal> {
        self.caller.open(tenant)
    }

    fn call(&mut self, alloc: Global, command: Command) -> Result<Reply, CallerFault> {
        self.caller.call(alloc, command)
    }

    fn settle(&mut self) -> Result<u64, Refusal> {
        Ok(3)
    }
}

impl Knows for Server {
    ghost knows = { λ _ _. Unit {0} };

    fn keep(&self, _alloc: Global, _tenant: u32, key: &Key) -> Result<u64, AllocError> {
        Ok(u64::from(key.as_bytes().first().copied().unwrap_or(0)) + 1)
    }

    fn find(&self, alloc: Global, _tenant: u32, cursor: u64) -> Result<Option<Key>, AllocError> {
        match u8::try_from(cursor.saturating_sub(1)) {
            Ok(byte) => Ok(Some(Key::new(Vec::from_slice(alloc, &[byte])?))),
            Err(_) => Ok(None),
        }
    }

    fn report(&self, _alloc: Global, tenant: u32, _status: Status) -> Result<Told, AllocError> {
        Ok(Told::Number(u64::from(tenant)))
    }
}

// What a session tells for bytes that come in pieces of so many. Commands after an end are not answered.
fn told(alloc: Global, bytes: &[u8], piece: usize) -> Result<Vec<u8>, AllocError> {
    let mut server = Server::new(alloc)?;
    let mut session = Session::new();
    let mut input = BytesMut::new(alloc);
    let mut output = Vec::new(alloc);
    for more in bytes.chunks(piece.max(1)) {
        input.extend_from_slice(more)?;
        if !answer_whole(alloc, &mut server, &mut session, &mut input, &mut output)? {
            break;
        }
    }
    Ok(output)
}

// Answers the whole commands of the input, three in a call at most: whether the session goes on.
fn answer_whole(
    alloc: Global,
    server: &mut Server,
    session: &mut Session,
    input: &mut BytesMut,
    output: &mut Vec<u8>,
) -> Result<bool, AllocError> {
    for _ in 0..100 {
        match answer(alloc, server, session, input, output, 3, usize::MAX) {
            Stop::Waits => return Ok(true),
            Stop::Goes => {}
            Stop::Settles if session.settle <= input.len() => {
                session.tell_settled(server.settle(), input, output)?;
            }
            Stop::Settles | Stop::Memory => return Err(AllocError),
            Stop::Quits | Stop::Refused => return Ok(false),
        }
    }
    Err(AllocError)
}

// Each session: its commands, and what is told, with a bar for the end of a line.
const SESSIONS: [(&str, &str); 14] = [
    (
        "PING\nPING hi\nECHO a\n\nFOO\nGET\nSET a\nQUIT\nPING\n",
        "+PONG|$2|hi|$1|a|-ERR unknown command 'foo'|-ERR wrong number of arguments for 'get' command|-ERR wrong number of arguments for 'set' command|+OK|",
    ),
    (
        "SET a 1\nGET a\nGET b\nSET a 2 NX\nSET b 3 XX\nSET a 4 XX GET\nGETSET a 5\nSETNX a 6\nGETDEL a\nGET a\nGETDEL a\n",
        "+OK|$1|1|$-1|$-1|$-1|$1|1|$1|4|:0|$1|5|$-1|$-1|",
    ),
    (
        "INCR n\nINCRBY n 41\nDECR n\nDECRBY n 50\nGET n\nSET n x\nINCR n\nSET n 9223372036854775807\nINCR n\nINCRBY n -9223372036854775807\nINCRBY n 01\n",
        ":1|:42|:41|:-9|$2|-9|+OK|-ERR value is not an integer or out of range|+OK|-ERR increment or decrement would overflow|:0|-ERR value is not an integer or out of range|",
    ),
    (
        "APPEND a xy\nAPPEND a z\nSTRLEN a\nGET a\nTYPE a\nTYPE b\nEXISTS a a b\nSTRLEN b\n",
        ":2|:3|:3|$3|xyz|+string|+none|:2|:0|",
    ),
    (
        "HSET h 0 a 2 b\nHSET h 2 c\nHGET h 2\nHGET h 9\nHGETALL h\nHLEN h\nHMGET h 2 5\nHINCRBY h 5 -3\nHEXISTS h 5\nHSTRLEN h 5\nTYPE h\nHSET h x 1\nGET h\n",
        ":2|:0|$1|c|$-1|*6|$1|0|$1|a|$1|1|$0||$1|2|$1|c|:3|*2|$1|c|$-1|:-3|:1|:2|+hash|-ERR a field is the index of a column, 0 to 15|$1|a|",
    ),
    (
        "MSET a 1 b 2\nMGET b x a\nDEL a x b\nDEL a\nUNLINK a\nMSET a\n",
        "+OK|*3|$1|2|$-1|$1|1|:2|:0|:0|-ERR wrong number of arguments for 'mset' command|",
    ),
    (
        "MSET a 1 b 2 c 3\nSCAN 0 COUNT 2\nSCAN 99 COUNT 2\nSCAN 0 MATCH [bc]\nSCAN 500\nSCAN x\n",
        "+OK|*2|$2|99|*2|$1|a|$1|b|*2|$1|0|*1|$1|c|*2|$1|0|*2|$1|b|$1|c|-ERR invalid cursor|-ERR invalid cursor|",
    ),
    (
        "MSET a 1 ab 2 b 3\nRANGE a 2\nRANGE a 2 AFTER\nRANGE a 9 PREFIX STAMPS\nRANGE a 65\n",
        "+OK|*4|$1|a|$1|1|$2|ab|$1|2|*4|$2|ab|$1|2|$1|b|$1|3|*6|$1|a|$1|1|:1|$2|ab|$1|2|:2|-ERR E8 a scan shows 1 to 64 keys|",
    ),
    (
        "SET a 1\nSELECT 7\nGET a\nSET a 2\nSET b 3\nSELECT 8\nGET a\nSELECT 0\nGET a\nSELECT 7\nDBSIZE\nRESET\nGET a\n",
        "+OK|+OK|$-1|+OK|-OOM the tenant has as many pairs as its quota|-ERR E4 this tenant isn't served; SELECT another|$1|2|+OK|$1|1|+OK|:7|+RESET|$1|1|",
    ),
    (
        "SET a 1\nGETS a\nPUTIF a 1 2\nPUTIF a 1 3\nSET a 4 IFSTAMP 3\nGET a\n",
        "+OK|*2|$1|1|:1|:1|:0|+OK|$1|4|",
    ),
    (
        "SET a 1\nWAITAOF 1 0 0\nWAIT 0 0\nGET a\n",
        "+OK|*2|:1|:0|:0|$1|1|",
    ),
    (
        "MSET a 1 b 2 c 3\nFLUSHDB\nMSET a 1 b 2\nFLUSHDB COUNT\nGET a\nFLUSHDB NOW\n",
        "+OK|+OK|+OK|:2|$-1|-ERR syntax error|",
    ),
    (
        "AUTH x\nHELLO 3\nCLIENT SETNAME x\nCOMMAND\nMULTI\nEXPIRE a 1\nSET a 1 EX 5\nGET a\n",
        "-ERR there are no passwords here; SELECT the tenant|-NOPROTO unsupported protocol version|+OK|*0|-ERR no transactions here; send a pipeline without MULTI|-ERR nothing expires here|-ERR nothing expires here|$-1|",
    ),
    ("PING\nPING \"x\"\nPING\n", "+PONG|-ERR Protocol error|"),
];

fn expect_told(rt: &impl Abort, alloc: Global, asked: &[u8], wanted: &str) {
    for piece in [usize::MAX, 1, 7] {
        let told = told(alloc, asked, piece).expect(rt, "memory");
        let mut shown = String::new(alloc);
        for byte in &told {
            match *byte {
                b'\r' => {}
                b'\n' => shown.push('|').expect(rt, "memory"),
                other => shown.push(char::from(other)).expect(rt, "memory"),
            }
        }
        assert_eq!(rt; shown.as_str(), wanted);
    }
}

#[test]
fn sessions_are_told_the_same_however_their_bytes_come(rt: HostRuntime) {
    for &(asked, wanted) in &SESSIONS {
        expect_told(&rt, rt.alloc(), asked.as_bytes(), wanted);
    }
}
