//! Laws and no work: what every search comes to, whatever its order.
ghost use Rattle.chisel_search.specs.Laws.{FewNodes, OneCertificate, OneRun, RunsCertify, RunsEnd, RunsFindLeast};

/// Every run ends: with as many parts allowed as the product of all decisions' options plus one, none is refused.
pub fn runs_end()
    ensures { RunsEnd }
{}

/// All rules and all picks find the least choice, so they find the same one.
pub fn runs_find_least()
    ensures least { RunsFindLeast }
    ensures certified { RunsCertify }
{}

/// A rule that is a function of the partial choice has one certificate, whatever the pick.
pub fn rules_certify_once()
    ensures certificate { OneCertificate }
    ensures nodes { FewNodes }
{}

/// A rule and a pick that are functions have one run.
pub fn functions_run_once()
    ensures { OneRun }
{}
