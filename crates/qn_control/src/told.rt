//! What was read of a corosync.conf, in lines.
use crate::devices::{host_of, port_of};
use crate::flags::reason_of;
use crate::named::name_of;
use crate::pairs::Pair;
use crate::text::Text;
use qn_base::LONGEST_PERIOD;
use qn_model::{Device, Settings};
use qn_polls::least_lease;
use std::alloc::{AllocError, Global};

/// The lines that tell of settings: each node, each flag with what turned it on, the device and its arbiter, the expected votes and the quorum.
pub fn settings_text(
    alloc: Global,
    settings: &Settings,
    pairs: &[Pair<'_>],
) -> Result<String, AllocError> {
    let mut text = Text::new(alloc);
    add_nodes(&mut text, settings, pairs);
    add_flags(&mut text, settings, pairs);
    add_votes(&mut text, settings, pairs);
    text.finish()
}

fn add_nodes(text: &mut Text, settings: &Settings, pairs: &[Pair<'_>]) {
    for node in settings.nodes.as_slice() {
        text.add_number("node ", u64::from(node.id.0));
        text.add(" name ");
        text.add(name_of(pairs, node.id).unwrap_or("-"));
        text.add_number(" votes ", u64::from(node.votes));
        text.add_number(" fence_delay ", node.fence_delay);
        text.add("\n");
    }
}

fn add_flags(text: &mut Text, settings: &Settings, pairs: &[Pair<'_>]) {
    let two_node = settings.two_node;
    let waits = if two_node { "two_node" } else { "default" };
    let last_man = settings.last_man_standing;
    let has_tie = settings.tie.is_some();
    add_flag(text, pairs, "two_node", two_node, "default");
    add_flag(text, pairs, "wait_for_all", settings.wait_for_all, waits);
    add_flag(text, pairs, "last_man_standing", last_man, "default");
    add_flag(text, pairs, "auto_tie_breaker", has_tie, "default");
}

/// The line of a flag, with what turned it on or off.
fn add_flag(
    text: &mut Text,
    pairs: &[Pair<'_>],
    key: &'static str,
    is_on: bool,
    absent: &'static str,
) {
    text.add(key);
    text.add(if is_on { " on by " } else { " off by " });
    text.add(reason_of(pairs, key, absent));
    text.add("\n");
}

/// Adds the line of the arbiter of a device, where that has a host: where it is, and its times.
fn add_arbiter(text: &mut Text, device: Device, pairs: &[Pair<'_>]) {
    let Some(host) = host_of(pairs) else {
        return;
    };
    text.add("\narbiter ");
    text.add_foreign(host);
    if let Some(port) = port_of(pairs) {
        text.add(" port ");
        text.add_foreign(port);
    }
    if device.timeout >= 1 && device.timeout <= LONGEST_PERIOD {
        let times = least_lease(device);
        text.add_number(" limit ", times.limit);
        text.add_number(" lease ", times.lease);
    }
}

fn add_votes(text: &mut Text, settings: &Settings, pairs: &[Pair<'_>]) {
    match settings.device {
        Some(device) => {
            text.add_number("device votes ", u64::from(device.votes));
            text.add_number(" timeout ", device.timeout);
            add_arbiter(text, device, pairs);
        }
        None => text.add("device none"),
    }
    let expected = settings.expected;
    text.add_number("\nlast_man_standing_window ", settings.window);
    text.add_number("\nexpected_votes ", expected);
    text.add(" by ");
    text.add(reason_of(pairs, "expected_votes", "the sum"));
    text.add_number("\nquorum ", settings.quorum(expected));
    text.add("\n");
}
