//! The outlet that prints the queries of a link.

ghost use Rattle.std.specs.Prelude.{◌≡◌};

use crate::replay_lines::put_query;
use mq_count::{Moment, Watched};
use mq_lines::LineKey;
use mq_link::QueryOutlet;
use mq_text::{LineFault, Text};
use mq_wire::Query;
use std::io::Write;

/// An outlet that puts each query at one moment, as a line or as an object of JSON. It answers true if the query was put.
/// Once a write has failed it puts nothing more.
#[derive(Drop)]
pub(crate) struct QueryLines<'a, W> {
    buffer: &'a mut Text,
    writer: &'a mut Watched<W>,
    moment: Moment,
    json: bool,
    answer: Result<(), LineFault>,
}

impl<'a, W: Write> QueryLines<'a, W> {
    /// Returns an outlet for queries at this moment.
    pub(crate) fn new(
        buffer: &'a mut Text,
        writer: &'a mut Watched<W>,
        moment: Moment,
        json: bool,
    ) -> QueryLines<'a, W>
        ensures same_buffer { result.buffer.ghost_name ≡ buffer.entry.ghost_name }
        ensures same_writer { result.writer.ghost_name ≡ writer.entry.ghost_name }
        ensures buffer { result.buffer.now ≡ buffer.old }
        ensures writer { result.writer.now ≡ writer.old }
        ensures moment { result.moment ≡ moment }
        ensures json { result.json ≡ json }
        ensures answer { result.answer ≡ Ok tt }
    {
        QueryLines {
            buffer,
            writer,
            moment,
            json,
            answer: Ok(()),
        }
    }

    /// Returns whether each query so far was put, or a write failed.
    pub(crate) fn answer(&self) -> Result<(), LineFault>
        ensures { result ≡ self.now.answer }
    {
        self.answer
    }
}

impl<'a, K: LineKey, W: Write> QueryOutlet<K> for QueryLines<'a, W> {
    ghost use Rattle.mq_replay.specs.QueryLines.{TakesQuery};

    ghost takes = { TakesQuery W.contents K.family };

    fn query(&mut self, to: K, query: &Query<'_, K>, bytes: &[u8]) -> bool {
        if self.answer.is_err() {
            return false;
        }
        self.answer = put_query(
            self.json,
            self.moment,
            to,
            query,
            bytes,
            self.buffer,
            self.writer,
        );
        self.answer.is_ok()
    }
}
