// No code: the customer's three demands, of every list of calls on a session.
#![tactic(auto)]
