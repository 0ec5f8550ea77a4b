// Worked documents: what the rules of legal documents come to on small documents and on broken ones.
ghost use Rattle.document.specs.Cases.{WorkedDocuments};

pub fn legal_cases()
    ensures { WorkedDocuments }
{}
