// Writes the pinning log of a railway's ticketing balancer to standard output. A record's key is a cookie and its value
// the server that the cookie is pinned to; a null value withdraws the pinning.
#![tactic(auto)]

use batches::{ControlBatchOrRecords, RecordBatch};
use layout::{ControlMode, RecordBatchTimestampType};
use markers::ControlBatchRecord;
use std::io;

// What keys and values are taken from: ten cookies, six servers, and the words of the headers.
const SOURCE: [u8; 344] = *b"session-0000000000000017\
session-0000000000000018\
session-0000000000000019\
session-0000000000000020\
session-0000000000000021\
session-0000000000000022\
session-0000000000000023\
session-0000000000000024\
session-0000000000000025\
session-0000000000000026\
rail-node-01\
rail-node-02\
rail-node-03\
rail-node-04\
rail-node-05\
rail-node-06\
reason\
zone\
moved\
expired\
north\
south";

// The length of a cookie, and of a server's name.
const COOKIE: i64 = 24;

const NODE: i64 = 12;

// Where the servers begin, and where each word stands.
const NODES: i64 = 10 * COOKIE;

const REASON: i64 = NODES + 6 * NODE;

const ZONE: i64 = REASON + 6;

const MOVED: i64 = ZONE + 4;

const EXPIRED: i64 = MOVED + 5;

const NORTH: i64 = EXPIRED + 7;

const SOUTH: i64 = NORTH + 5;

// The numbers of a record row.
const ROW: usize = 8;

// How many bytes a batch may have.
const ROOM: usize = 4096;

// The rows of all batches, one batch after the other: timestamp delta, offset delta, start and length of key and value,
// first header row, header count. Cookies and servers are counted from 0.
const RECORDS: [[i64; ROW]; 24] = [
    // Pinned at first sight.
    [0, 0, 0 * COOKIE, COOKIE, NODES + 0 * NODE, NODE, 0, 0],
    [1210, 1, 1 * COOKIE, COOKIE, NODES + 1 * NODE, NODE, 0, 0],
    [2877, 2, 2 * COOKIE, COOKIE, NODES + 2 * NODE, NODE, 0, 0],
    [4892, 3, 3 * COOKIE, COOKIE, NODES + 0 * NODE, NODE, 0, 0],
    // The same, with the zone where it is known.
    [0, 0, 4 * COOKIE, COOKIE, NODES + 1 * NODE, NODE, 0, 1],
    [95, 1, 5 * COOKIE, COOKIE, NODES + 3 * NODE, NODE, 1, 1],
    [2310, 2, 6 * COOKIE, COOKIE, NODES + 2 * NODE, NODE, 2, 0],
    // One moved, one new.
    [0, 0, 1 * COOKIE, COOKIE, NODES + 3 * NODE, NODE, 0, 2],
    [640, 1, 7 * COOKIE, COOKIE, NODES + 1 * NODE, NODE, 2, 0],
    // Two withdrawn.
    [0, 0, 1 * COOKIE, COOKIE, 0, -1, 0, 1],
    [15000, 1, 4 * COOKIE, COOKIE, 0, -1, 1, 0],
    // Two moved and one new, in a transaction.
    [0, 0, 0 * COOKIE, COOKIE, NODES + 4 * NODE, NODE, 0, 1],
    [0, 1, 2 * COOKIE, COOKIE, NODES + 4 * NODE, NODE, 1, 1],
    [1, 2, 8 * COOKIE, COOKIE, NODES + 4 * NODE, NODE, 2, 0],
    // Two moved in a transaction that is given up.
    [0, 0, 5 * COOKIE, COOKIE, NODES + 0 * NODE, NODE, 0, 1],
    [1, 1, 6 * COOKIE, COOKIE, NODES + 0 * NODE, NODE, 1, 1],
    // Pinned, with the time at which the log took them.
    [0, 0, 8 * COOKIE, COOKIE, NODES + 5 * NODE, NODE, 0, 0],
    [210, 1, 9 * COOKIE, COOKIE, NODES + 4 * NODE, NODE, 0, 0],
    [480, 2, 4 * COOKIE, COOKIE, NODES + 1 * NODE, NODE, 0, 0],
    // What compaction left of six.
    [0, 0, 5 * COOKIE, COOKIE, NODES + 0 * NODE, NODE, 0, 0],
    [1730, 2, 6 * COOKIE, COOKIE, 0, -1, 0, 0],
    [4415, 5, 7 * COOKIE, COOKIE, NODES + 3 * NODE, NODE, 0, 0],
    // One cookie, pinned twice.
    [0, 0, 0 * COOKIE, COOKIE, NODES + 1 * NODE, NODE, 0, 0],
    [350, 1, 0 * COOKIE, COOKIE, NODES + 5 * NODE, NODE, 0, 2],
];

// The header rows of a batch.
const NONE: [i64; 0] = [];

const ZONES: [i64; 8] = [ZONE, 4, NORTH, 5, ZONE, 4, SOUTH, 5];

const TO_NORTH: [i64; 8] = [REASON, 6, MOVED, 5, ZONE, 4, NORTH, 5];

const TO_SOUTH: [i64; 8] = [REASON, 6, MOVED, 5, ZONE, 4, SOUTH, 5];

const MOVES: [i64; 8] = [REASON, 6, MOVED, 5, REASON, 6, MOVED, 5];

const EXPIRY: [i64; 4] = [REASON, 6, EXPIRED, 7];

// Base offset, last offset delta, first and greatest timestamp.
#[derive(Clone, Copy)]
struct Extent(i64, i32, i64, i64);

// The extents of all batches. Times are milliseconds since 1970: the log begins on 15 November 2024 at 08:00 UTC.
const EXTENTS: [Extent; 12] = [
    Extent(48210, 3, 1_731_657_600_312, 1_731_657_605_204),
    Extent(48214, 2, 1_731_657_611_040, 1_731_657_613_350),
    Extent(48217, 1, 1_731_657_618_771, 1_731_657_619_411),
    Extent(48219, 1, 1_731_657_902_400, 1_731_657_917_400),
    Extent(48221, 2, 1_731_658_230_002, 1_731_658_230_003),
    Extent(48224, 0, 1_731_658_230_019, 1_731_658_230_019),
    Extent(48225, 1, 1_731_658_250_500, 1_731_658_250_501),
    Extent(48227, 0, 1_731_658_250_777, 1_731_658_250_777),
    Extent(48228, 2, 1_731_658_391_000, 1_731_658_391_850),
    Extent(48231, 2, 1_731_658_460_100, 1_731_658_462_250),
    Extent(48234, 5, 1_731_658_600_020, 1_731_658_604_435),
    Extent(48240, 1, 1_731_658_655_600, 1_731_658_655_950),
];

// Id, epoch, first sequence number, and whether in a transaction.
#[derive(Drop)]
struct Producer(i64, i16, i32, bool);

const NOBODY: Producer = Producer(-1, -1, -1, false);

// One producer's two transactions, the second counted on from the first. A marker has no sequence number.
const MOVING: Producer = Producer(4012, 3, 0, true);

const MOVING_ON: Producer = Producer(4012, 3, 3, true);

const MARKING: Producer = Producer(4012, 3, -1, true);

// The producer of a batch that is kept, empty, so that its last sequence number is not forgotten.
const REMEMBERED: Producer = Producer(4009, 0, 11, false);

const CREATED: RecordBatchTimestampType = RecordBatchTimestampType::CreateTime;

const APPENDED: RecordBatchTimestampType = RecordBatchTimestampType::LogAppendTime;

fn main(rt: HostRuntime) -> io::Result<()> {
    pin(&rt)?;
    move_together(&rt)?;
    go_on(&rt)
}

fn pin(rt: &impl Print) -> io::Result<()> {
    let b = batch(EXTENTS[0], NOBODY, CREATED);
    print_records(rt, b, &RECORDS[..4], &NONE)?;
    let b = batch(EXTENTS[1], NOBODY, CREATED);
    print_records(rt, b, &RECORDS[4..7], &ZONES)?;
    let b = batch(EXTENTS[2], NOBODY, CREATED);
    print_records(rt, b, &RECORDS[7..9], &TO_NORTH)?;
    let b = batch(EXTENTS[3], NOBODY, CREATED);
    print_records(rt, b, &RECORDS[9..11], &EXPIRY)
}

// Two transactions, each with the marker that ends it.
fn move_together(rt: &impl Print) -> io::Result<()> {
    let b = batch(EXTENTS[4], MOVING, CREATED);
    print_records(rt, b, &RECORDS[11..14], &MOVES)?;
    let b = batch(EXTENTS[5], MARKING, CREATED);
    print_marker(rt, b, ControlBatchRecord::Commit)?;
    let b = batch(EXTENTS[6], MOVING_ON, CREATED);
    print_records(rt, b, &RECORDS[14..16], &MOVES)?;
    let b = batch(EXTENTS[7], MARKING, CREATED);
    print_marker(rt, b, ControlBatchRecord::Abort)
}

// The first batch has lost all its three records to compaction and the third has lost three of six: both keep the
// offsets that they had.
fn go_on(rt: &impl Print) -> io::Result<()> {
    let b = batch(EXTENTS[8], REMEMBERED, CREATED);
    print_records(rt, b, &[], &NONE)?;
    let b = batch(EXTENTS[9], NOBODY, APPENDED);
    print_records(rt, b, &RECORDS[16..19], &NONE)?;
    let b = batch(EXTENTS[10], NOBODY, CREATED);
    print_records(rt, b, &RECORDS[19..22], &NONE)?;
    let b = batch(EXTENTS[11], NOBODY, CREATED);
    print_records(rt, b, &RECORDS[22..], &TO_SOUTH)
}

fn batch(e: Extent, p: Producer, timestamp_type: RecordBatchTimestampType) -> RecordBatch {
    RecordBatch {
        base_offset: e.0,
        partition_leader_epoch: 6,
        last_offset_delta: e.1,
        first_timestamp: e.2,
        max_timestamp: e.3,
        producer_id: p.0,
        producer_epoch: p.1,
        base_sequence: p.2,
        is_transactional: p.3,
        timestamp_type,
    }
}

fn print_records(
    rt: &impl Print,
    batch: RecordBatch,
    records: &[[i64; ROW]],
    headers: &[i64],
) -> io::Result<()> {
    let kind = ControlBatchOrRecords::Records(records.len());
    print(rt, batch, kind, records.as_flattened(), headers)
}

fn print_marker(rt: &impl Print, batch: RecordBatch, marker: ControlBatchRecord) -> io::Result<()> {
    print(
        rt,
        batch,
        ControlBatchOrRecords::ControlBatch(marker),
        &[],
        &[],
    )
}

// Writes a batch. One that is refused is left out, and the log is then not the one that is expected.
fn print(
    rt: &impl Print,
    batch: RecordBatch,
    kind: ControlBatchOrRecords,
    records: &[i64],
    headers: &[i64],
) -> io::Result<()> {
    let mut output = [0u8; ROOM];
    let written = batch.write(
        ControlMode::Keyed,
        0,
        kind,
        records,
        headers,
        &SOURCE,
        &mut output,
    );
    match written {
        Ok(n) => rt.write_all(&output[..n]),
        Err(_) => Ok(()),
    }
}
