//! The status of a cluster as metrics, for the textfile collector of Prometheus's node exporter.
use crate::cluster::ClusterStatus;
use crate::text::Text;
use qn_shown::Shown;
use qn_verdict::is_stale;
use std::alloc::{AllocError, Global};

/// A metric of each node.
#[derive(Clone, Copy)]
enum Metric {
    Up,
    Holds,
    Quorate,
    Votes,
    Quorum,
    Incarnation,
    Age,
    LinesDropped,
    PacketsRefused,
}

impl Metric {
    const ALL: [Metric; 9] = [
        Metric::Up,
        Metric::Holds,
        Metric::Quorate,
        Metric::Votes,
        Metric::Quorum,
        Metric::Incarnation,
        Metric::Age,
        Metric::LinesDropped,
        Metric::PacketsRefused,
    ];

    /// The name, after `quorumd_`.
    fn name(self) -> &'static str {
        match self {
            Metric::Up => "up",
            Metric::Holds => "holds",
            Metric::Quorate => "quorate",
            Metric::Votes => "votes",
            Metric::Quorum => "quorum",
            Metric::Incarnation => "incarnation",
            Metric::Age => "age_seconds",
            Metric::LinesDropped => "lines_dropped_total",
            Metric::PacketsRefused => "packets_refused_total",
        }
    }

    /// What it is.
    fn help(self) -> &'static str {
        match self {
            Metric::Up =>
                "Whether the status file of the node is fresh and the node has not ended.",
            Metric::Holds => "Whether the node holds the resource; 0 of one that is not up.",
            Metric::Quorate => "Whether the node is quorate.",
            Metric::Votes => "The votes of the present view of the node.",
            Metric::Quorum => "The votes that the node needs.",
            Metric::Incarnation => "The number of the boot of the node.",
            Metric::Age => "How old the status file of the node is.",
            Metric::LinesDropped => "Lines for which standard error of the node had no room.",
            Metric::PacketsRefused => "Packets that came to the node and were none.",
        }
    }

    /// A counter rises alone; a gauge may fall.
    fn kind(self) -> &'static str {
        match self {
            Metric::LinesDropped | Metric::PacketsRefused => "counter",
            Metric::Up
            | Metric::Holds
            | Metric::Quorate
            | Metric::Votes
            | Metric::Quorum
            | Metric::Incarnation
            | Metric::Age => "gauge",
        }
    }

    /// The value of a node; None where there is none.
    fn value(self, cluster: &ClusterStatus, node: &Shown) -> Option<Value> {
        let is_up = !is_stale(cluster.now, node);
        match self {
            Metric::Up => Some(Value::truth(is_up)),
            Metric::Holds => Some(Value::truth(is_up && node.holds)),
            Metric::Quorate => Some(Value::truth(node.answer.quorate)),
            Metric::Votes => Some(Value::Count(node.answer.votes)),
            Metric::Quorum => Some(Value::Count(node.answer.quorum)),
            Metric::Incarnation => node.incarnation.map(Value::Count),
            Metric::Age => Some(Value::Milliseconds(cluster.age(node))),
            Metric::LinesDropped => Some(Value::Count(node.counts.dropped)),
            Metric::PacketsRefused => Some(Value::Count(node.counts.refused)),
        }
    }
}

/// The value of a metric.
#[derive(Clone, Copy)]
enum Value {
    Count(u64),
    /// Written as seconds.
    Milliseconds(u64),
}

impl Value {
    /// 1 where it is so, else 0.
    fn truth(is_so: bool) -> Value {
        Value::Count(if is_so { 1 } else { 0 })
    }
}

/// The metrics of each node, and the verdict as a number.
pub fn cluster_metrics(alloc: Global, cluster: &ClusterStatus) -> Result<String, AllocError> {
    let mut text = Text::new(alloc);
    for metric in Metric::ALL.iter() {
        let metric = *metric;
        add_head(&mut text, metric.name(), metric.help(), metric.kind());
        for node in cluster.nodes.as_slice() {
            add_value(&mut text, metric, cluster, node);
        }
    }
    let help = "The verdict: 0 healthy, 1 degraded, 2 no owner, 3 unknown.";
    add_head(&mut text, "state", help, "gauge");
    text.add_number("quorumd_state ", u64::from(cluster.verdict().exit_status()));
    text.add("\n");
    text.finish()
}

/// The two lines before the values of a metric.
fn add_head(text: &mut Text, name: &str, help: &str, kind: &str) {
    text.add("# HELP quorumd_");
    text.add(name);
    text.add(" ");
    text.add(help);
    text.add("\n# TYPE quorumd_");
    text.add(name);
    text.add(" ");
    text.add(kind);
    text.add("\n");
}

/// The line of a node.
fn add_value(text: &mut Text, metric: Metric, cluster: &ClusterStatus, node: &Shown) {
    let Some(value) = metric.value(cluster, node) else {
        return;
    };
    text.add("quorumd_");
    text.add(metric.name());
    text.add_number("{node=\"", u64::from(node.id.0));
    if let Some(name) = &node.name {
        text.add("\",name=\"");
        text.add_label(name.as_str());
    }
    text.add("\"} ");
    match value {
        Value::Count(count) => text.add_number("", count),
        Value::Milliseconds(milliseconds) => text.add_thousandths(milliseconds),
    }
    text.add("\n");
}
