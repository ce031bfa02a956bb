//! How broken rules are reported.
ghost use Rattle.std.specs.Prelude.{◌≡◌, ◌<◌, ◌≤◌, ◌+◌, ◌++◌, map, Some, length};
ghost use Rattle.std.specs.Option.{option_to_list};
ghost use Rattle.ncp_monitor.specs.declared.findings.TheConstants.{MAX_FINDINGS};
ghost use Rattle.ncp_monitor.specs.Phases.{broken_by};
ghost use Rattle.ncp_monitor.specs.Requests.{broken};
ghost use Rattle.ncp_monitor.specs.Reporting.{reported_rule, both_rules};

use crate::allocation::Numbers;
use crate::conn_tables::ConnTables;
use crate::finding::Rule;
use crate::findings::Findings;
use crate::observed_flow::Acceptance;
use crate::phase::MessageContext;
use crate::talked::JudgeContext;

/// Reports a broken rule, unless the tables are marked as full.
pub(crate) fn tell(
    judge_context: JudgeContext<'_>,
    rule: Rule,
    conn_tables: &ConnTables,
    found: &mut Findings,
)
    requires { length found.old < MAX_FINDINGS }
    ensures found { found.new ≡ found.old ++ reported_rule judge_context.entry.context conn_tables.now (Some rule) }
    ensures len { length found.new ≤ length found.old + 1 }
{
    if !conn_tables.is_full() {
        found.push(judge_context.context.finding(rule));
    }
}

/// Reports the broken rule, if there is one, unless the tables are marked as full.
pub(crate) fn report_some(
    judge_context: JudgeContext<'_>,
    rule: Option<Rule>,
    conn_tables: &ConnTables,
    found: &mut Findings,
)
    requires { length found.old < MAX_FINDINGS }
    ensures found { found.new ≡ found.old ++ reported_rule judge_context.entry.context conn_tables.now rule }
    ensures len { length found.new ≤ length found.old + 1 }
{
    if let Some(rule) = rule {
        tell(judge_context, rule, conn_tables, found);
    }
}

/// Reports the rule that an acceptance shows broken, unless the tables are marked as full.
pub(crate) fn report_acceptance(
    judge_context: JudgeContext<'_>,
    acceptance: Acceptance,
    conn_tables: &ConnTables,
    found: &mut Findings,
)
    requires { length found.old < MAX_FINDINGS }
    ensures found { found.new ≡ found.old ++ reported_rule judge_context.entry.context conn_tables.now (broken acceptance) }
    ensures len { length found.new ≤ length found.old + 1 }
{
    match acceptance {
        Acceptance::Right | Acceptance::Unclear(None) => {}
        Acceptance::Refused(rule) => tell(judge_context, rule, conn_tables, found),
        Acceptance::Unclear(Some(rule)) => tell(judge_context, rule, conn_tables, found),
    }
}

// Appends a finding against the source, if a rule is broken.
fn push_broken(context: &MessageContext, rule: Option<Rule>, found: &mut Findings)
    requires { length found.old < MAX_FINDINGS }
    ensures found { found.new ≡ found.old ++ map (broken_by context.now) (option_to_list rule) }
    ensures len { length found.new ≤ length found.old + 1 }
{
    if let Some(rule) = rule {
        found.push(context.finding(rule));
    }
}

/// Reports the rules broken by numbers.
pub(crate) fn report_numbers(context: &MessageContext, wrong: Numbers, found: &mut Findings)
    requires { length found.old + 2 ≤ MAX_FINDINGS }
    ensures found { found.new ≡ found.old ++ map (broken_by context.now) (both_rules wrong) }
    ensures len { length found.new ≤ length found.old + 2 }
{
    push_broken(context, wrong.first, found);
    push_broken(context, wrong.second, found);
}
