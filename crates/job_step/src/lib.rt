// The step that a job asks for, and what the job answers (01, "The job program"): definitions and their laws.
#![tactic(auto)]
