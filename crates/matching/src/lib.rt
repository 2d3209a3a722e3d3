// The mathematics under a choice: the use of a set of candidates, tight sets, Hall's theorem, and the first placing. Laws alone.

#![tactic(auto)]
