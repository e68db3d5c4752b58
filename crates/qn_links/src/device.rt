//! What a settings text says of where the arbiter of its quorum device is (corosync-qdevice(8), `quorum`, `device`, `net`).
ghost use Rattle.std.specs.Prelude.{◌≡◌, ◌↔◌, ◌<◌, ◌-◌, ◌^◌, ◌∷◌, IsTrue, codes, drop, length};
ghost use Rattle.qn_links.specs.Arbiters.{HasHost, host_of, port_text};
ghost use Rattle.qn_links.specs.Devices.{innermost, inside, last_in_net, open_after, value_in};
ghost use Rattle.qn_conf.specs.Line.{or_else};
ghost use Rattle.std.specs.declared.net.ip_addr.IpAddr.{IpAddr};

use crate::links::address_of_machine;
use qn_conf::{Item, Tree};
use std::marker::Model;

/// What a settings text says of where the arbiter of its quorum device is: the last value of each key.
#[derive(Clone, Copy, Default)]
pub struct DeviceNet<'text> {
    /// `host`
    pub host: Option<&'text [u8]>,
    /// `port`
    pub port: Option<&'text [u8]>,
}

impl<'text> DeviceNet<'text> {
    /// Takes an item inside that section.
    fn take(&mut self, section: Section, item: &Item<'text>)
        ensures host { host_of self.new
            ≡ or_else (value_in section (codes "host") item.now) (host_of self.old) }
        ensures port { port_text self.new
            ≡ or_else (value_in section (codes "port") item.now) (port_text self.old) }
    {
        let Item::Pair(key, value) = item else {
            return;
        };
        if section != Section::Net {
            return;
        }
        if key.bytes() == b"host".as_slice() {
            self.host = Some(value.bytes());
        } else if key.bytes() == b"port".as_slice() {
            self.port = Some(value.bytes());
        }
    }

    /// Whether the host that is written is an address of one machine.
    pub fn names_arbiter(&self) -> bool
        ensures some { IsTrue result → (address : IpAddr) × HasHost self.now address }
        ensures none { (address : IpAddr) → HasHost self.now address → IsTrue result }
    {
        self.host
            .is_some_and(|text| address_of_machine(text).is_some())
    }
}

/// A section of a settings text on the way to that of an arbiter.
#[derive(Clone, Copy, PartialEq, Eq)]
pub(crate) enum Section {
    /// Outside every section.
    Outside,
    Quorum,
    Device,
    Net,
    /// A section that is passed over.
    Other,
}

impl Section {
    /// The section of this name inside this one.
    fn inside(self, name: &[u8]) -> Section
        ensures { result ≡ inside self name.now }
    {
        match self {
            Section::Outside if name == b"quorum".as_slice() => Section::Quorum,
            Section::Quorum if name == b"device".as_slice() => Section::Device,
            Section::Device if name == b"net".as_slice() => Section::Net,
            Section::Outside | Section::Quorum | Section::Device | Section::Net | Section::Other =>
                Section::Other,
        }
    }
}

/// The sections that stand open, innermost first: those on the way to an arbiter's, and how many others inside them.
#[derive(Drop)]
struct OpenSections {
    known: Section,
    others: usize,
}

impl Model for OpenSections {
    ghost use Rattle.std.specs.Prelude.{List, ◌++◌, replicate};
    ghost use Rattle.qn_links.specs.declared.device.Section.{Section};
    ghost use Rattle.qn_links.specs.declared.device.Section.TheVariants.{Other};
    ghost use Rattle.qn_links.specs.Devices.{chain};

    ghost Value = { List Section };

    ghost view = { λ s. replicate s.others Other ++ chain s.known };
}

impl OpenSections {
    ghost use Rattle.std.specs.Prelude.{◌≡◌, ◌<◌, ◌-◌, ◌^◌, [], ◌∷◌, length, drop};
    ghost use Rattle.qn_links.specs.Devices.{innermost, inside, open_after};

    fn new() -> Self
        ensures { result ≡ [] }
    {
        OpenSections {
            known: Section::Outside,
            others: 0,
        }
    }

    fn innermost(&self) -> Section
        ensures { result ≡ innermost self.now }
    {
        if self.others > 0 {
            Section::Other
        } else {
            self.known
        }
    }

    /// Takes the next item of the text.
    fn take(&mut self, item: &Item<'_>)
        requires { length self.old < 2 ^ 64 - 1 }
        ensures { self.new ≡ open_after self.old item.now }
    {
        match item {
            Item::Enter(name) => self.enter(name.bytes()),
            Item::Exit => self.exit(),
            Item::Pair(_, _) => {}
        }
    }

    /// Begins the section of this name.
    fn enter(&mut self, name: &[u8])
        requires { length self.old < 2 ^ 64 - 1 }
        ensures { self.new ≡ inside (innermost self.old) name.now ∷ self.old }
    {
        let section = self.innermost().inside(name);
        match section {
            Section::Other => self.others += 1,
            Section::Outside | Section::Quorum | Section::Device | Section::Net => {
                self.known = section;
            }
        }
    }

    /// Ends the innermost section, if one stands open.
    fn exit(&mut self)
        ensures { self.new ≡ drop 1 self.old }
    {
        if self.others > 0 {
            self.others -= 1;
            return;
        }
        self.known = match self.known {
            Section::Net => Section::Device,
            Section::Device => Section::Quorum,
            Section::Outside | Section::Quorum | Section::Other => Section::Outside,
        };
    }
}

/// What a tree says of where the arbiter is.
#[tactic(auto, unfolding(crate::specs::Devices::last_in_net))]
pub fn device_of<'text>(tree: &Tree<'text>) -> DeviceNet<'text>
    ensures host { host_of result ≡ last_in_net (codes "host") tree.now }
    ensures port { port_text result ≡ last_in_net (codes "port") tree.now }
{
    let mut open = OpenSections::new();
    let mut net = DeviceNet::default();
    for item in tree.items() {
        net.take(open.innermost(), item);
        open.take(item);
    }
    net
}
