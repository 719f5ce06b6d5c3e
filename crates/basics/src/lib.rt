// Lists, bytes and relations, with no transaction in sight. The definitions stand in specs/, their laws in proofs/.

#![tactic(auto)]
