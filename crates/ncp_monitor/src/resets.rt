//! `Trust`: what is reported after an interface reset.
ghost use Rattle.std.specs.Prelude.{◌≡◌};
ghost use Rattle.ncp_monitor.specs.Resets.{is_of_form, reports_imp, reports};

use crate::finding::{Finding, Rule, Who};

/// Whose violations a record shows for certain.
#[derive(Clone, Copy, Drop)]
pub struct Trust {
    /// Those of the host at whose interface it was made.
    pub host: bool,
    /// Those of the peer.
    pub peer: bool,
    /// Those of the IMP, about deliveries.
    pub imp: bool,
}

// Whether a rule is about the form of a message, which no earlier message can excuse.
fn is_of_form(rule: &Rule) -> bool
    ensures { result ≡ is_of_form rule.now }
{
    matches!(
        rule,
        Rule::Short { .. }
            | Rule::OwnHost { .. }
            | Rule::Kind { .. }
            | Rule::Fault { .. }
            | Rule::WrongLink { .. }
            | Rule::WrongSize { .. }
            | Rule::Extras { .. }
            | Rule::Bad { .. }
    )
}

impl Trust {
    // Whether a violation by the IMP is reported.
    fn reports_imp(self, rule: &Rule) -> bool
        ensures { result ≡ reports_imp self rule.now }
    {
        match rule {
            Rule::FalseAnswer { .. } | Rule::Unsent { .. } => self.imp,
            _ => true,
        }
    }

    /// Whether a finding in a record at the interface of host `at` is reported.
    pub(crate) fn reports(self, at: u8, finding: &Finding) -> bool
        ensures { result ≡ reports self at finding.now }
    {
        match finding.who {
            Who::Host(host) => {
                if host == at {
                    self.host
                } else {
                    is_of_form(&finding.rule) || self.peer
                }
            }
            Who::Imp => self.reports_imp(&finding.rule),
        }
    }
}
