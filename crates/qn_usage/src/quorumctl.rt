//! The commands of `quorumctl`.
use crate::program::Program;
use crate::synopsis::Synopsis;

/// The program `quorumctl`.
pub const QUORUMCTL: Program = Program {
    name: "quorumctl",
    is: "looks at the settings, the times, the image and the nodes of a quorumd cluster",
    before: "",
    commands: COMMANDS,
};

/// The commands of `quorumctl`, in the order of `quorumctl --help`.
const COMMANDS: &[Synopsis] = &[
    Synopsis {
        line: "settings",
        reads: "COROSYNC.CONF",
        does: "what is read of a corosync.conf, and what of it is risky or wrong",
        example: "quorumctl settings < /etc/quorumd/corosync.conf",
    },
    Synopsis {
        line: "timing --watchdog 1..3600000 --loop 1..3600000 --read-limit 1..3600000 --feed-delay 1..3600000 [--disk 1..3600000]",
        reads: "",
        does: "the least safe msgwait for these times, and how long a take-over takes on which disk",
        example: "quorumctl timing --watchdog 5000 --loop 1000 --read-limit 2000 --feed-delay 1000",
    },
    Synopsis {
        line: "watchdog PATH [--watchdog 1..3600000] [--sys FOLDER]",
        reads: "",
        does: "what the kernel says of a watchdog, and whether a node may arm it",
        example: "quorumctl watchdog /dev/watchdog --watchdog 5000",
    },
    Synopsis {
        line: "check --image PATH [--json]",
        reads: "COROSYNC.CONF or /dev/null",
        does: "what is wrong with an image, and whether it fits a corosync.conf",
        example: "quorumctl check --image /srv/cluster/disk < /etc/quorumd/corosync.conf",
    },
    Synopsis {
        line: "list --image PATH [--json]",
        reads: "",
        does: "the nodes of an image, with their messages",
        example: "quorumctl list --image /srv/cluster/disk",
    },
    Synopsis {
        line: "wait --image PATH --id 1..4294967295",
        reads: "",
        does: "returns when the message to a node was read, or msgwait has passed",
        example: "quorumctl wait --image /srv/cluster/disk --id 2",
    },
    Synopsis {
        line: "status [--json|--prometheus|--watch] [--image PATH] [FILE..]",
        reads: "",
        does: "what the status files of the nodes of this host come to; without FILE those in /run/quorumd",
        example: "quorumctl status --watch",
    },
    Synopsis {
        line: "history [FILE..]",
        reads: "",
        does: "what the journals of the nodes tell, in the order of time",
        example: "journalctl -u quorumd@1 -o short-iso-precise --since -1h | quorumctl history",
    },
    Synopsis {
        line: "standby [--node NODE] [--yes]",
        reads: "",
        does: "the node of this host never holds the resource, from now on and after each boot",
        example: "quorumctl standby --node 1",
    },
    Synopsis {
        line: "unstandby [--node NODE]",
        reads: "",
        does: "it may hold it again",
        example: "quorumctl unstandby --node 1",
    },
    Synopsis {
        line: "fit [--node NODE]",
        reads: "",
        does: "it may hold it again, after a start that failed for good",
        example: "quorumctl fit --node 1",
    },
    Synopsis {
        line: "move [--node NODE] [--yes|--off]",
        reads: "",
        does: "the resource moves to the node of this host; with --off it is asked for no more",
        example: "quorumctl move",
    },
    Synopsis {
        line: "group",
        reads: "EVENTS",
        does: "what is to be done to the resources of a host, event by event, for its supervisor",
        example: "quorumctl group < events",
    },
];
