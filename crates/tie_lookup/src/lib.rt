// What a header says of a key: by class, and for streamers, nodes, motion sensors and observations each by its own number.
#![tactic(auto)]

pub mod questions;
pub mod search;

ghost use Rattle.std.specs.Prelude.{◌≡◌, []};
ghost use Rattle.tie_lookup.specs.questions.Questions.{key_answer, streamer_class, node_class, sensor_class, observation_class};

use crate::questions::{Defined, Key};
use base_refusal::Refusal;
use tie_rules::{NODES, OBSERVATIONS, SENSORS, STREAMERS};

// The numbers of streamers, nodes, motion sensors and observations, each with a question of its own.
#[derive(Clone, Copy)]
pub struct Streamer(pub i64);

#[derive(Clone, Copy)]
pub struct Node(pub i64);

#[derive(Clone, Copy)]
pub struct Sensor(pub i64);

#[derive(Clone, Copy)]
pub struct Observation(pub i64);

// What a header says of a key of a class: the header's refusal first, then 13 where there is no such class.
pub fn find_key(header: &[u8], class: u64, key: Key, text: &[u8]) -> Result<Defined, Refusal>
    ensures { result ≡ key_answer header.now class key text.now }
{
    header_check::check(header)?;
    questions::answer(header, class, key, text)
}

// The same of a key that is one whole number; no text goes with it.
fn find_whole(header: &[u8], class: u64, number: i64) -> Result<Defined, Refusal>
    ensures { result ≡ key_answer header.now class (Key.Whole number) [] }
{
    find_key(header, class, Key::Whole(number), &[])
}

// The same of a streamer.
pub fn find_streamer(header: &[u8], streamer: Streamer) -> Result<Defined, Refusal>
    ensures { result ≡ key_answer header.now streamer_class (Key.Whole streamer.0) [] }
{
    find_whole(header, STREAMERS, streamer.0)
}

// The same of a node.
pub fn find_node(header: &[u8], node: Node) -> Result<Defined, Refusal>
    ensures { result ≡ key_answer header.now node_class (Key.Whole node.0) [] }
{
    find_whole(header, NODES, node.0)
}

// The same of a motion sensor.
pub fn find_sensor(header: &[u8], sensor: Sensor) -> Result<Defined, Refusal>
    ensures { result ≡ key_answer header.now sensor_class (Key.Whole sensor.0) [] }
{
    find_whole(header, SENSORS, sensor.0)
}

// The same of an observation.
pub fn find_observation(header: &[u8], observation: Observation) -> Result<Defined, Refusal>
    ensures { result ≡ key_answer header.now observation_class (Key.Whole observation.0) [] }
{
    find_whole(header, OBSERVATIONS, observation.0)
}
