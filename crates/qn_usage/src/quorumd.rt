//! The commands of `quorumd`, in the order of `quorumd help`.
use crate::program::Program;
use crate::synopsis::Synopsis;

/// The program `quorumd`.
pub const QUORUMD: Program = Program {
    name: "quorumd",
    is: "one member of a high-availability cluster",
    before: BEFORE,
    commands: COMMANDS,
};

/// The words that may stand before each command of `quorumd`: they are for the machine, and not for the node.
const BEFORE: &str =
    "[--links CONF] [--key FILE [--key FILE [--key FILE]]] [--open] [--seal-meaning] [--halt FILE] [--status FILE] [--leave-file FILE] [--standing-file FILE] [--group FILE] [--blank] [--anew]";

/// The commands of `quorumd`, in the order of `quorumd help`.
const COMMANDS: &[Synopsis] = &[
    Synopsis {
        line: "count",
        reads: "LINES",
        does: "which of several views has the majority",
        example: "quorumd count < examples/count.txt",
    },
    Synopsis {
        line: "replay",
        reads: "SCHEDULE",
        does: "what a cluster does, event by event",
        example: "quorumd replay < examples/feeding-on.schedule",
    },
    Synopsis {
        line: "status [--form text|json]",
        reads: "SCHEDULE",
        does: "how each node stands after a schedule",
        example: "quorumd status --form json < examples/feeding-on.schedule",
    },
    Synopsis {
        line: "soak SEED:0.. EVENTS:1..200000",
        reads: "",
        does: "what so many events, drawn from a seed, come to",
        example: "quorumd soak 1 1000",
    },
    Synopsis {
        line: "create --image PATH [--timing W,M,L,R,S]",
        reads: "COROSYNC.CONF",
        does: "makes the disk image of a cluster",
        example: "quorumd --blank create --image /srv/cluster/disk < /etc/quorumd/corosync.conf",
    },
    Synopsis {
        line: "dump --image PATH",
        reads: "",
        does: "the header of an image",
        example: "quorumd dump --image /srv/cluster/disk",
    },
    Synopsis {
        line: "list --image PATH",
        reads: "",
        does: "the nodes of an image, with their messages",
        example: "quorumd list --image /srv/cluster/disk",
    },
    Synopsis {
        line: "message --image PATH --id 1..4294967295 --kind clear|test|reset|off|exit|crashdump",
        reads: "",
        does: "leaves a message to a node",
        example: "quorumd message --image /srv/cluster/disk --id 2 --kind test",
    },
    Synopsis {
        line: "node --id 1..4294967295 --image PATH --watchdog PATH --resource PATH --port 1024..65000 \
               --turns 1..1000000000 [--leave 1..1000000000] [--start-mode 0..1]",
        reads: "COROSYNC.CONF",
        does: "runs a node of the cluster",
        example: "quorumd --links corosync.conf --key key node --id 1 --image /srv/cluster/disk --watchdog /dev/watchdog --resource unix:/run/quorumd/agent.sock --port 7400 --turns 1000000000 < corosync.conf",
    },
    Synopsis {
        line: "migrate --image PATH",
        reads: "",
        does: "brings an image of version 1 to version 2",
        example: "quorumd migrate --image /srv/cluster/disk",
    },
    Synopsis {
        line: "replay3",
        reads: "SCHEDULE",
        does: "what a cluster does on three images, event by event",
        example: "quorumd replay3 < examples/three-images/an-image-is-lost/schedule",
    },
    Synopsis {
        line: "node3 --id 1..4294967295 --image P1,P2,P3 --watchdog PATH --resource PATH --port 1024..65000 \
               --turns 1..1000000000 [--leave 1..1000000000] [--start-mode 0..1]",
        reads: "COROSYNC.CONF",
        does: "runs a node of the cluster on three images",
        example: "quorumd --links corosync.conf --key key node3 --id 1 --image /srv/a/disk,/srv/b/disk,/srv/c/disk --watchdog /dev/watchdog --resource unix:/run/quorumd/agent.sock --port 7400 --turns 1000000000 < corosync.conf",
    },
    Synopsis {
        line: "replay-arbiter",
        reads: "SCHEDULE",
        does: "what a cluster does beside an arbiter, event by event",
        example: "quorumd replay-arbiter < examples/arbiter/the-vote-moves/schedule",
    },
    Synopsis {
        line: "node-logged --id 1..4294967295 --image PATH --watchdog PATH --resource PATH --port 1024..65000 \
               --turns 1..1000000000 [--leave 1..1000000000] [--start-mode 0..1]",
        reads: "COROSYNC.CONF",
        does: "the same as node, with a line for each of its calls",
        example: "quorumd node-logged --id 1 --image disk --watchdog watchdog --resource resource --port 7400 --turns 9 < examples/one-node.conf > record",
    },
    Synopsis {
        line: "audit --id 1..4294967295 --turns 1..1000000000 [--leave 1..1000000000] [--start-mode 0..1] [--images 1|3] \
               [--polls 1..3600000]",
        reads: "RECORD",
        does: "whether the record of a node is a run of it",
        example: "quorumd audit --id 1 --turns 9 < record",
    },
    Synopsis {
        line: "node3-logged --id 1..4294967295 --image P1,P2,P3 --watchdog PATH --resource PATH --port 1024..65000 \
               --turns 1..1000000000 [--leave 1..1000000000] [--start-mode 0..1]",
        reads: "COROSYNC.CONF",
        does: "the same as node3, with a line for each of its calls",
        example: "quorumd node3-logged --id 1 --image a,b,c --watchdog watchdog --resource resource --port 7400 --turns 9 < examples/one-node.conf > record",
    },
    Synopsis {
        line: "arbiter [--port 1024..65000] [--turns 1..9223372036854775808]",
        reads: "COROSYNC.CONF",
        does: "answers the nodes of the cluster, as its quorum device",
        example: "quorumd --links corosync.conf --key key arbiter --port 7400 < corosync.conf",
    },
    Synopsis {
        line: "help",
        reads: "",
        does: "the names of the commands",
        example: "quorumd help",
    },
];
