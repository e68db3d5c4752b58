//! The log of a running node and its audit: each call with its answer is one line, and an audit says how far the lines are
//! a run that the definition of the running node allows.
//!
//! Promises: a line is read as the call that `specs/Reading` gives, or its first fault is named; an `Auditor` takes
//! a call exactly where the run of `live_plan` asks for it. `audit_log` and `audit` end as `specs/Auditing` and
//! `specs/Inputs` define for the bytes that were taken and the way in which the input ended, and take no byte that the
//! end does not need. A `Recorder` changes no call, answer or fault of its outside and writes each call as the line of
//! `specs/Logs` while no write failed, and then nothing more; `run_recorded` makes the calls of the plan and logs just
//! these, and its log audits as whole (`law_logs_audit`). The laws of audits are in `specs/JudgeLaws`, `specs/AuditLaws`
//! and `specs/InputLaws`. Memory is taken for the settings alone.
#![tactic(auto)]

mod answering;
mod audit_end;
mod audit_input;
mod auditor;
mod laws;
mod log;
mod log_bytes;
mod log_line;
mod log_name;
mod log_place;
mod log_text;
mod log_word;
mod logged_call;
mod logging;
mod recorder;

pub use audit_end::AuditEnd;
pub use audit_input::audit;
pub use auditor::{Auditor, NotNext, Verdict};
pub use laws::{law_lines_read_back, law_logs_audit, law_one_audit};
pub use log::audit_log;
pub use log_line::read_call;
pub use log_place::MOST_LOG_LINES;
pub use log_text::{LOG_LINE, put_call_line};
pub use logged_call::LoggedCall;
pub use logging::run_recorded;
pub use recorder::Recorder;
