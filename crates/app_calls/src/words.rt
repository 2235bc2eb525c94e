//! The words of configurations, and what is put in front of a caller's memory.
ghost use Rattle.std.specs.Prelude.{◌≡◌, ◌≤◌, ◌*◌, ◌++◌, length, take, IfOk, OnOk};
ghost use Rattle.app_calls.specs.Words.{with_front, words_of};

use rounds_plan::Config;
use rule_check::State;
use std::alloc::AllocError;

/// Appends the state's words of so many fields.
pub fn add_words(words: &mut Vec<u32>, state: &State, fields: usize) -> Result<(), AllocError>
    requires few { fields ≤ 8 }
    ensures added { OnOk result (words.new.items ≡ words.old.items ++ take fields state.now.words) }
    ensures count { length (take fields state.now.words) ≡ fields }
{
    words.extend_from_slice(&state.words[..fields])
}

/// Appends the words of all fields of all nodes, node by node.
pub(crate) fn add_config(words: &mut Vec<u32>, config: &Config) -> Result<(), AllocError>
    ensures added { OnOk result (words.new.items ≡ words.old.items ++ words_of config.now) }
    ensures count { OnOk result (length (words_of config.now) ≡ length config.now.states * config.now.fields) }
{
    let fields = config.fields() as usize;
    // For the proof: how many fields a configuration has.
    let _round = config.rounds();
    for state in config.states() {
        add_words(words, state, fields)?;
    }
    Ok(())
}

/// Puts the words in front.
pub(crate) fn put_words(words: &[u32], out: &mut [u32])
    requires room { length words.now ≤ length out.old }
    ensures put { out.new ≡ with_front words.now out.old }
{
    out[..words.len()].copy_from_slice(words);
}

/// Puts the bytes of a text in front.
pub(crate) fn put_bytes(text: &[u8], out: &mut [u8])
    requires room { length text.now ≤ length out.old }
    ensures put { out.new ≡ with_front text.now out.old }
{
    out[..text.len()].copy_from_slice(text);
}
