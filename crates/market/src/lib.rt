// The cumulative offer process in any market whose choice obeys the laws: candidates and entries are numbers, and nothing is known of a round. Laws alone.

#![tactic(auto)]
