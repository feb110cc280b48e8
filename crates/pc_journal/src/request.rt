ghost use Rattle.std.specs.Prelude.{◌≡◌, ◌∷◌, ◌++◌, OnOk};
ghost use Rattle.pc_journal.specs.Fits.{FitsRequest};
ghost use Rattle.pc_journal.specs.Request.{request_text};

use crate::meta::Point;
use crate::text::{Text, five, four, one, six, three};
use pc_base::NoMemory;
use pc_proto::Request;

impl Text for Request {
    ghost text = { request_text };

    ghost spelled = { FitsRequest };

    fn print(&self, out: &mut Vec<u8>) -> Result<(), NoMemory> {
        match self {
            Request::Get {
                id,
                epoch,
                seq,
                ts,
                key,
            } => four(b"get", &Point::new(*id, *epoch, *seq), ts, key, out),
            Request::Scan {
                id,
                epoch,
                seq,
                ts,
                span,
            } => four(b"scan", &Point::new(*id, *epoch, *seq), ts, span, out),
            Request::Put {
                meta,
                seq,
                ts,
                key,
                value,
            } => six(b"put", meta, seq, ts, key, value, out),
            Request::Refresh { id, from, to, span } => five(b"refresh", id, from, to, span, out),
            Request::Beat { meta, ts, now } => four(b"beat", meta, ts, now, out),
            Request::Stage {
                meta,
                ts,
                now,
                writes,
                locks,
            } => six(b"stage", meta, ts, now, writes, locks, out),
            Request::Commit { meta, ts, locks } => four(b"commit", meta, ts, locks, out),
            Request::Abort { meta, why, locks } => four(b"abort", meta, why, locks, out),
            Request::Push {
                holder,
                by,
                level,
                now,
                goal,
            } => six(b"push", holder, by, level, now, goal, out),
            Request::Query {
                id,
                epoch,
                seq,
                ts,
                key,
                by,
            } => five(b"query", &Point::new(*id, *epoch, *seq), ts, key, by, out),
            Request::Recover {
                id,
                epoch,
                ts,
                anchor,
                finding,
            } => six(b"recover", id, epoch, ts, anchor, finding, out),
            Request::Resolve { id, key, fate } => four(b"resolve", id, key, fate, out),
            Request::Remove { id, anchor } => three(b"remove", id, anchor, out),
            Request::Records => one(b"records", out),
        }
    }
}
