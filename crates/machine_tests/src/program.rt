//! Programs: their texts, readers that fail, histories and turns.

mod failing;
mod from_json;
mod readers;
mod refused_texts;
mod turns;
